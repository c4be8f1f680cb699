//! Tests of the program: runs over the forms in memory, and the calls that no run makes.
#![tactic(auto)]

#[cfg(test)]
mod angle_tests;
#[cfg(test)]
mod caller_tests;
#[cfg(test)]
mod cdf_part_tests;
#[cfg(test)]
mod cdf_read_tests;
#[cfg(test)]
mod cdf_tests;
#[cfg(test)]
mod certificate_tests;
#[cfg(test)]
mod counted_tests;
#[cfg(test)]
mod csv_absolute_tests;
#[cfg(test)]
mod csv_fault_tests;
#[cfg(test)]
mod csv_header_tests;
#[cfg(test)]
mod csv_tests;
#[cfg(test)]
mod edit_tests;
#[cfg(test)]
mod failure_tests;
#[cfg(test)]
mod full_tests;
#[cfg(test)]
mod grid_tests;
#[cfg(test)]
mod grids;
#[cfg(test)]
mod limit_tests;
#[cfg(test)]
mod line_tests;
#[cfg(test)]
mod matpower_fault_tests;
#[cfg(test)]
mod matpower_part_tests;
#[cfg(test)]
mod matpower_read_tests;
#[cfg(test)]
mod matpower_tests;
#[cfg(test)]
mod notice_tests;
#[cfg(test)]
mod outside_tests;
#[cfg(test)]
mod place_tests;
#[cfg(test)]
mod read_cert_tests;
#[cfg(test)]
mod reference_cases;
#[cfg(test)]
mod reference_edit_tests;
#[cfg(test)]
mod reference_full_tests;
#[cfg(test)]
mod reference_tests;
#[cfg(test)]
mod report_tests;
#[cfg(test)]
mod rows;
#[cfg(test)]
mod scripts;
#[cfg(test)]
mod session_tests;
#[cfg(test)]
mod spoilt_tests;
#[cfg(test)]
mod stays_tests;
#[cfg(test)]
mod study_caller_tests;
#[cfg(test)]
mod study_tests;
#[cfg(test)]
mod summary_tests;
#[cfg(test)]
mod tests;
#[cfg(test)]
mod text_tests;
#[cfg(test)]
mod topology_tests;
#[cfg(test)]
mod trial_tests;
#[cfg(test)]
mod verdicts;
#[cfg(test)]
mod verify_tests;
#[cfg(test)]
mod worked;
