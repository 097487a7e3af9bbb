// What an entry answers, as the words that a host in C or Rust lends: registers are five, an answer is four.
#![tactic(auto)]

pub mod words;
