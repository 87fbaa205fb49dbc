//! What stands in files, and readers and writers that fail or count. What is printed, reported and refused
//! where they work are cases of `programs`, `data/steps.sh`.
mod crashed_runs;
mod crashes;
mod disk_calls;
mod file_calls;
mod file_disk;
mod grouped;
mod grouped_lines;
mod limits;
mod machine;
mod made_up;
mod memory_files;
mod opened;
mod places;
mod programs;
mod running;
mod scripts;
mod second_files;
mod streams;
