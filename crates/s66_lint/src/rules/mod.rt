//! What is found in a line, by its rules: begin at `rules.rt`. Rules that need more than a few lines have a file of their own.

mod counts_words;
mod loads_stores;
mod passes_code;
mod past_column_72;
mod rows_of_no;
mod rules;
mod skips_words;
mod slips;
mod takes_code;

pub(crate) use rules::Rules;
