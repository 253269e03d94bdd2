// Tests of the public functions of all crates. The values that they expect are those of the
// format's description and of worked examples, and not what the program gives.
mod addresses;
mod catalogues;
mod drafts;
mod examples;
mod files;
mod forms;
mod header_and_blocks;
mod layouts;
mod like;
mod lines;
mod numbers;
mod outputs;
mod plans;
mod raw_data;
mod runs;
mod shelves;
mod words;
