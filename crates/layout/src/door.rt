// The front door: the tests of the table of answers in their order, the least place winning in each. `admit_` decides and lends
// nothing; `enter_` also fills the lent lists with their marks on a refusal, and leaves them alone otherwise.

ghost use Rattle.std.specs.Prelude.{◌≡◌, ℕ, Bool, Option, length};
ghost use Rattle.layout.specs.Coordinates.{bad_coordinate};
ghost use Rattle.layout.specs.Job.{layout_of, job_of, cut_job_of};
ghost use Rattle.layout.specs.Counts.{over_cut, over_extraction};
ghost use Rattle.layout.specs.Answers.{answer_of, uneven_in, bad_coordinates, bad_record, bad_mark, admit_extraction, admit_marked, admit_cut, admit_channel, EnteredExtraction, EnteredCut, EnteredChannel};

use crate::coordinates::bad_coordinate;
use crate::counts::{
    is_uneven, over_layout, over_tables, short_channel, short_cut, short_extraction,
};
use crate::job::{CutJob, Job, Layout};
use crate::records::{bad_layer, bad_pair, bad_port, bad_stack};
use crate::refusal::Refusal;
use lists::fill;
use names::fields::name_allowed;
use names::tables::record_count;

impl<'a> Layout<'a> {
    // The first count that is over its bound.
    fn over(self) -> Option<usize>
        ensures { result ≡ over_cut (layout_of self.entry) }
    {
        over_layout(self.lengths, self.points.len(), self.layer_table.count())
    }

    // Whether the lists do not fit together.
    fn is_uneven(self) -> bool
        ensures { result ≡ uneven_in (layout_of self.entry) }
    {
        is_uneven(self.points.len(), self.lengths, self.layers.len())
    }
}

// ---- the answers, in their order

// What is asked of an input, behind the lengths of its lent lists.
trait Input: Copy {
    // what the definitions say of it, in the order of the tests
    ghost over: { Self → Option ℕ };

    ghost uneven: { Self → Bool };

    ghost coordinate: { Self → Option ℕ };

    ghost name: { Self → Option ℕ };

    // The first count that is over its bound.
    fn over(self) -> Option<usize>
        ensures { result ≡ over self };

    // Whether its lists do not fit together.
    fn is_uneven(self) -> bool
        ensures { result ≡ uneven self };

    // The first coordinate out of bounds.
    fn bad_coordinate(self) -> Option<usize>
        ensures { result ≡ coordinate self };

    // The first record that is not allowed.
    fn bad_record(self) -> Option<usize>
        ensures { result ≡ name self };
}

impl Input for Job<'_> {
    ghost over = { λ j. over_extraction (job_of j) };

    ghost uneven = { λ j. uneven_in (job_of j).layout };

    ghost coordinate = { λ j. bad_coordinates (job_of j).layout.points (job_of j).port_points };

    ghost name = { λ j. let l = (job_of j).layout in bad_record l.layer_numbers l.layer_names (job_of j).conducting (job_of j).via (job_of j).stack (job_of j).port_names (length (job_of j).port_points) };

    #[tactic(auto, using(crate::proofs::Laws::Answers::over_in_layout, crate::proofs::Laws::Answers::over_in_tables))]
    fn over(self) -> Option<usize> {
        if let Some(k) = self.layout.over() {
            return Some(k);
        }
        over_tables(
            record_count(self.conducting.len(), 64),
            record_count(self.via.len(), 64),
            record_count(self.stack.len(), 96),
            self.ports.count(),
        )
    }

    fn is_uneven(self) -> bool {
        self.layout.is_uneven()
    }

    // Those of the ports are counted after the points.
    #[tactic(auto, using(crate::proofs::Laws::Answers::bad_coordinate_below), unfolding(crate::specs::Answers::bad_coordinates))]
    fn bad_coordinate(self) -> Option<usize> {
        if let Some(k) = bad_coordinate(self.layout.points) {
            return Some(k);
        }
        let k = bad_coordinate(self.ports.points)?;
        Some(self.layout.points.len() + k)
    }

    // The tables are counted through one after the other.
    #[tactic(auto, using(crate::proofs::Laws::Records::bad_layer_below, crate::proofs::Laws::Records::bad_pair_below, crate::proofs::Laws::Records::bad_stack_below, crate::proofs::Laws::Records::bad_port_below), unfolding(crate::specs::Answers::bad_record))]
    fn bad_record(self) -> Option<usize> {
        if let Some(k) = bad_layer(self.layout.layer_table) {
            return Some(k);
        }
        let to_conducting = self.layout.layer_table.count();
        if let Some(k) = bad_pair(self.conducting) {
            return Some(to_conducting + k);
        }
        let to_via = to_conducting + record_count(self.conducting.len(), 64);
        if let Some(k) = bad_pair(self.via) {
            return Some(to_via + k);
        }
        let to_stack = to_via + record_count(self.via.len(), 64);
        if let Some(k) = bad_stack(self.stack) {
            return Some(to_stack + k);
        }
        let to_ports = to_stack + record_count(self.stack.len(), 96);
        let k = bad_port(self.ports.names, self.ports.points.len())?;
        Some(to_ports + k)
    }
}

impl Input for CutJob<'_> {
    ghost over = { λ j. over_cut (cut_job_of j).layout };

    ghost uneven = { λ j. uneven_in (cut_job_of j).layout };

    ghost coordinate = { λ j. bad_coordinate (cut_job_of j).layout.points };

    ghost name = { λ j. let l = (cut_job_of j).layout in bad_mark l.layer_numbers l.layer_names (cut_job_of j).gate (cut_job_of j).active };

    fn over(self) -> Option<usize> {
        self.layout.over()
    }

    fn is_uneven(self) -> bool {
        self.layout.is_uneven()
    }

    fn bad_coordinate(self) -> Option<usize> {
        bad_coordinate(self.layout.points)
    }

    // The layer table, then the gate's name and the active's.
    #[tactic(auto, unfolding(crate::specs::Answers::bad_mark))]
    fn bad_record(self) -> Option<usize> {
        if let Some(k) = bad_layer(self.layout.layer_table) {
            return Some(k);
        }
        let to_gate = self.layout.layer_table.count();
        if !name_allowed(self.gate) {
            return Some(to_gate);
        }
        if !name_allowed(self.active) {
            return Some(to_gate + 1);
        }
        None
    }
}

// Whether an input is let in, by which of its lent lists is too short.
fn admit<I: Input>(input: I, short: Option<usize>) -> Result<(), Refusal>
    ensures { result ≡ answer_of short (I.over input) (I.uneven input) (I.coordinate input) (I.name input) }
{
    if let Some(k) = short {
        return Err(Refusal::ShortList(k));
    }
    if let Some(k) = input.over() {
        return Err(Refusal::OverCount(k));
    }
    if input.is_uneven() {
        return Err(Refusal::Uneven);
    }
    if let Some(k) = input.bad_coordinate() {
        return Err(Refusal::Coordinate(k));
    }
    if let Some(k) = input.bad_record() {
        return Err(Refusal::Name(k));
    }
    Ok(())
}

// Whether an extraction is let in, with the lengths of its lent lists.
#[tactic(auto, unfolding(crate::specs::Answers::admit_extraction))]
pub fn admit_extraction(
    job: Job,
    components: usize,
    connections: usize,
    landings: usize,
) -> Result<(), Refusal>
    ensures { result ≡ admit_extraction (job_of job.entry) components connections landings }
{
    let ports = job.ports.count();
    let polygons = job.layout.lengths.len();
    admit(
        job,
        short_extraction(polygons, ports, components, connections, landings),
    )
}

// Whether a cut is let in, with the lengths of its lent lists.
#[tactic(auto, unfolding(crate::specs::Answers::admit_marked))]
pub fn admit_cut(
    job: CutJob,
    cut_points: usize,
    cut_lengths: usize,
    sources: usize,
) -> Result<(), Refusal>
    ensures { result ≡ admit_cut (cut_job_of job.entry) cut_points cut_lengths sources }
{
    admit(job, short_cut(cut_points, cut_lengths, sources))
}

// Whether channel regions are let in, with the length of their lent list.
#[tactic(auto, unfolding(crate::specs::Answers::admit_marked))]
pub fn admit_channel(job: CutJob, regions: usize) -> Result<(), Refusal>
    ensures { result ≡ admit_channel (cut_job_of job.entry) regions }
{
    admit(job, short_channel(regions))
}

// ---- the same with the lent lists, each call's own, which a refusal fills

// Lets an extraction in, or refuses it and fills its lent lists.
#[tactic(auto, using(crate::proofs::Laws::Answers::left_refused, crate::proofs::Laws::Answers::left_alone))]
pub fn enter_extraction(
    job: Job,
    components: &mut [usize],
    connections: &mut [usize],
    landings: &mut [usize],
) -> Result<(), Refusal>
    ensures { EnteredExtraction (job_of job.entry) components.old connections.old landings.old
        components.new connections.new landings.new result }
{
    let answer = admit_extraction(job, components.len(), connections.len(), landings.len());
    if answer.is_err() {
        fill(components, 0);
        fill(connections, 0);
        fill(landings, 0);
    }
    answer
}

// Lets a cut in, or refuses it and fills its lent lists.
#[tactic(auto, using(crate::proofs::Laws::Answers::left_refused, crate::proofs::Laws::Answers::left_alone))]
pub fn enter_cut(
    job: CutJob,
    cut_points: &mut [f64],
    cut_lengths: &mut [usize],
    sources: &mut [usize],
) -> Result<(), Refusal>
    ensures { EnteredCut (cut_job_of job.entry) cut_points.old cut_lengths.old sources.old
        cut_points.new cut_lengths.new sources.new result }
{
    let answer = admit_cut(job, cut_points.len(), cut_lengths.len(), sources.len());
    if answer.is_err() {
        fill(cut_points, 0);
        fill(cut_lengths, 0);
        fill(sources, 0);
    }
    answer
}

// Lets channel regions in, or refuses them and fills their lent list.
#[tactic(auto, using(crate::proofs::Laws::Answers::left_refused, crate::proofs::Laws::Answers::left_alone))]
pub fn enter_channel(job: CutJob, regions: &mut [f64]) -> Result<(), Refusal>
    ensures { EnteredChannel (cut_job_of job.entry) regions.old regions.new result }
{
    let answer = admit_channel(job, regions.len());
    if answer.is_err() {
        fill(regions, 0);
    }
    answer
}
