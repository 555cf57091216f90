//! Rows of what is written: lines, columns and texts in a terminal, reports, the rows of the library, and the lines of programs.
mod lines;
mod print;
mod report;
mod rows;
