// Jobs as lines of words, the format of oracle/README.md: words are read from a line, and those of an answer are put behind one another.
#![tactic(auto)]

pub mod words;
pub mod writing;
