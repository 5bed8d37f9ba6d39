//! The words of a command line: one of the commands `build`, `why` and `lint`, with its options and files, read with clap.
#![tactic(auto)]

ghost use Rattle.std.specs.Prelude.{◌≡◌, Some, None, IfOk, IsErrOf};
ghost use Rattle.fc_words.specs.Asking.{asked, asked_of, texts};
ghost use Rattle.fc_words.specs.Plain.{PlainBuild, PlainLint, PlainWhy};

mod commands;
mod reading;

pub use reading::request_of;

/// The numbers that a build keeps to.
#[derive(Clone, Copy, Debug, PartialEq, Eq)]
pub struct Tuning {
    /// The most growing steps of a module, up to 1,000,000.
    pub ticks: u64,
    /// What a growing step may add in any case, in nodes, up to 10,000; at most `grow`.
    pub small: u64,
    /// The most nodes of a right side that an interface tells, and the most nodes that a growing step may add; up to 10,000.
    pub grow: u64,
}

/// What is to be done with the files.
#[derive(Clone, Copy, Debug)]
pub enum Command<'a> {
    /// Judge them and write what they are built to, each file's name behind this prefix.
    Build(Tuning, &'a str),
    /// Judge them and put the logs of what they would be built to, and write nothing.
    Why(Tuning),
    /// Judge them, and write nothing.
    Lint,
}

/// What the words of a command line ask for.
#[derive(Debug, Drop)]
pub struct Request<'a> {
    /// What is to be done.
    pub command: Command<'a>,
    /// The name of the first file.
    pub file: &'a str,
    /// The names of the files behind it, in the order of the words.
    pub others: Vec<&'a str>,
}

/// Why words give no request.
#[derive(Clone, Copy, Debug, PartialEq, Eq)]
pub enum Unasked {
    /// clap refuses the words, or `small` is above `grow`.
    Usage,
    /// Out of memory.
    Memory,
}

/// Plain words are always accepted, and each option then has the value that is written, else its default.
///
/// Plain words are the word of a command; then, for `build` and `why`, any of its options, each at most once and in any order, as `--x v`
/// or `--x=v`; then one or more files. Numbers stand in decimal digits without leading zeros, within their range; prefixes and
/// names of files are not empty and do not begin with `-`.
pub fn plain_words_are_accepted()
    ensures build { PlainBuild }
    ensures why { PlainWhy }
    ensures lint { PlainLint }
{}
