//! Rows of what the faces of `ecma` write, of files, of HTML and pages, and of what is imported.

mod faces;
mod files;
mod markup;
mod pages;
mod specifiers;
