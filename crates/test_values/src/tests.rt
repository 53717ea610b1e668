mod checks;
mod journals;
mod lexemes;
mod packing;
mod schedules;
mod scripts;
mod trees;
mod writing;
