//! Tests of the lines that are read (`gate_frames`) and of those that are written (`output_lines`).
#![tactic(auto)]

#[cfg(test)]
mod lines_in;
#[cfg(test)]
mod lines_out;
