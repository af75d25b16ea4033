//! Words of the command line that name a job, that don't, and that ask for help.

use cg_testing::expect;
use cg_tool::{Subcommand, job_of};
use std::alloc::{AllocError, Global};
use std::test::Fail;

// The words of a line, which are parted by single spaces. A line without a byte has none.
fn words_in(alloc: Global, line: &str) -> Result<Vec<&str>, AllocError> {
    if line.is_empty() {
        return Ok(Vec::new(alloc));
    }
    line.split(' ').collect(alloc)
}

// Tests whether a line names this job, without the flag of cut journals, and as its files, in their order, the words after
// the first, of which there are `files`.
fn names(
    alloc: Global,
    line: &str,
    subcommand: Subcommand,
    files: usize,
) -> Result<bool, AllocError> {
    let words = words_in(alloc, line)?;
    let Ok(job) = job_of(alloc, &words) else {
        return Ok(false);
    };
    let is_right = job.files.len() == files && words.as_slice().ends_with(job.files.as_slice());
    Ok(is_right && job.subcommand == subcommand && !job.is_cut)
}

#[test]
fn words_name_jobs(rt: HostRuntime) -> Result<(), Fail> {
    for (line, subcommand, files) in [
        ("", Subcommand::Answer, 0),
        ("answer", Subcommand::Answer, 0),
        ("sim", Subcommand::Sim, 0),
        ("audit a", Subcommand::Audit, 1),
        ("audit b.journal a.journal b.journal", Subcommand::Audit, 3),
        ("serve f", Subcommand::Serve, 1),
        ("serve a.toml", Subcommand::Serve, 1),
        ("agent a.toml", Subcommand::Agent, 1),
    ] {
        expect!(names(rt.alloc(), line, subcommand, files)?, "{line}")?;
    }
    Ok(())
}

#[test]
fn a_flag_names_cut_journals(rt: HostRuntime) -> Result<(), Fail> {
    for (line, files) in [
        ("audit --cut a", "a"),
        ("audit a --cut", "a"),
        ("audit b.journal --cut a.journal", "b.journal a.journal"),
    ] {
        let words = words_in(rt.alloc(), line)?;
        let Ok(job) = job_of(rt.alloc(), &words) else {
            return Err("no job".into());
        };
        let due = words_in(rt.alloc(), files)?;
        expect!(
            job.is_cut && job.files.as_slice() == due.as_slice(),
            "{line}"
        )?;
    }
    Ok(())
}

// Tests whether a line names no job, and is answered with this status and by a text with this start and this part.
fn is_told(
    alloc: Global,
    line: &str,
    status: i32,
    start: &str,
    part: &str,
) -> Result<bool, AllocError> {
    let words = words_in(alloc, line)?;
    let Err(error) = job_of(alloc, &words) else {
        return Ok(false);
    };
    let text = error.to_string(alloc)?;
    let is_right = text.as_str().starts_with(start) && text.as_str().contains(part);
    Ok(is_right && error.exit_code() == status)
}

#[test]
fn other_words_are_faults_or_ask_for_texts(rt: HostRuntime) -> Result<(), Fail> {
    for (line, status, start, part) in [
        ("sim x", 2, "error: ", ""),
        ("answer x", 2, "error: ", ""),
        ("nothing", 2, "error: ", ""),
        (" ", 2, "error: ", ""),
        ("serve", 2, "error: ", ""),
        ("serve f g", 2, "error: ", ""),
        ("audit", 2, "error: ", ""),
        ("audit --cut", 2, "error: ", ""),
        ("audit --cut --cut a", 2, "error: ", ""),
        ("serve --cut f", 2, "error: ", ""),
        ("agent", 2, "error: ", ""),
        ("agent f g", 2, "error: ", ""),
        ("agent --cut f", 2, "error: ", ""),
        ("--nothing", 2, "error: ", ""),
        ("--version", 0, "", "cg 0.1.0"),
        ("--help", 0, "", "Play a script"),
        ("--help", 0, "", "Exit status"),
        ("sim --help", 0, "", "deliver N EP NOW"),
        ("sim --help", 0, "", "remove EP KEY"),
        ("answer --help", 0, "", "ENDPOINT GENERATION CLUSTER"),
        ("--help", 0, "", "Run a node"),
        ("serve --help", 0, "", "generation_file"),
        ("serve --help", 0, "", "replicas RF TEXT"),
        ("serve --help", 0, "", "remove KEY"),
        ("--help", 0, "", "Run a node over TCP until it is stopped"),
        ("agent --help", 0, "", "journal_mb"),
        ("agent --help", 0, "", "silent EP"),
        ("--help", 0, "", "one run of the gossip"),
        ("audit --help", 0, "", "stuck EP GENERATION ITEM"),
        ("audit --help", 0, "", "--cut"),
    ] {
        expect!(
            is_told(rt.alloc(), line, status, start, part)?,
            "{line}: {part}"
        )?;
    }
    Ok(())
}
