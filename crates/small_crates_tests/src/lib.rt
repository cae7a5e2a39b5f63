//! Tests of calls that take memory, where no command makes them as they are made here: each has enough of it and does not give up.
//! What such a call answers is in its contract, for every input. Beside them the ports over real files, and a bell that rings
//! between a look and the sleep, of which no clause speaks. Those of the commands are the rows of `command_rows`.
#![tactic(auto)]

#[cfg(test)]
mod bells;
#[cfg(test)]
mod calls;
#[cfg(test)]
mod data_records;
#[cfg(test)]
mod definition_files;
#[cfg(test)]
mod images;
#[cfg(test)]
mod ports;
#[cfg(test)]
mod record_writing;
#[cfg(test)]
mod whole_sessions;
#[cfg(test)]
mod written_objects;
