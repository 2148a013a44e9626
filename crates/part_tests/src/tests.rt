//! Journals on disks in memory and of the system, where a call fails or the program stops; the wires; and who is let in
//! at a port.

mod client_ports;
mod client_wires;
mod doubles;
mod failing_disks;
mod journals;
