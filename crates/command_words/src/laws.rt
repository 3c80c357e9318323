//! Laws on the reading of words, each the contract of a function that does nothing: no program calls these.
#![allow(dead_code)]

ghost use Rattle.command_words.specs.Table.{OneReadingAtMost, OthersAreNotRead, WordsAreReadByTable};

// What words are read as is what they ask for by the table, and other words are not read.
fn words_are_read_by_the_table()
    ensures read { WordsAreReadByTable }
    ensures unread { OthersAreNotRead }
{}

// Words ask for one thing at most by the table.
fn words_have_one_reading_at_most()
    ensures { OneReadingAtMost }
{}
