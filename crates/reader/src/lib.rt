//! Reads a file: judges it line by line in one pass, and hands out its heading and payments.
#![tactic(auto)]

mod label_values;
mod read_labels;
