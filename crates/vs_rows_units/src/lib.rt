//! Tests of what stands below a simulation: vectors of digits, event queues, the tokens of sources, and certificates.
#![tactic(auto)]

#[cfg(test)]
mod calls;
#[cfg(test)]
mod certificate_answers;
#[cfg(test)]
mod certificate_members;
#[cfg(test)]
mod certificates;
#[cfg(test)]
mod dump_lines;
#[cfg(test)]
mod dump_sinks;
#[cfg(test)]
mod dump_slots;
#[cfg(test)]
mod dumps;
#[cfg(test)]
mod event_queues;
#[cfg(test)]
mod line_tables;
#[cfg(test)]
mod lines;
#[cfg(test)]
mod process_steps;
#[cfg(test)]
mod regions;
#[cfg(test)]
mod small_design;
#[cfg(test)]
mod tables;
#[cfg(test)]
mod token_texts;
#[cfg(test)]
mod tokens;
#[cfg(test)]
mod vectors;
#[cfg(test)]
mod whole;
