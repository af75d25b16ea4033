//! The job that a command line requests.

ghost use Rattle.std.specs.Prelude.{◌≡◌, IfOk, IfErr, true, false, codes};
ghost use Rattle.clap.specs.Words.{app_of, found_of, new_app, rows_of, subcommand_rows_of, kind_of, FailsBy};
ghost use Rattle.clap.specs.declared.builder.command.Command.TheViews.{out-Command};
ghost use Rattle.cg_tool.specs.Job as spec;
ghost use Rattle.cg_tool.specs.Job.{with_version, without_name, audit_command, serve_command, agent_command, program, subcommand_met, files_met, files_in, cut_met, is_cut_in, texts, subcommand_in, are_taken, faults_of};

use crate::texts::{
    ABOUT, AGENT_ABOUT, AGENT_HELP, ANSWER_ABOUT, ANSWER_HELP, AUDIT_ABOUT, AUDIT_HELP, CUT_HELP,
    SERVE_ABOUT, SERVE_HELP, SIM_ABOUT, SIM_HELP, STATUSES, VERSION,
};
use clap::error::ErrorKind;
use clap::{Arg, ArgAction, ArgMatches, Command, Error};
use std::alloc::{AllocError, Global};

/// The kind of a job.
#[derive(Clone, Copy, Debug, PartialEq, Eq)]
pub enum Subcommand {
    /// Answer one SYN.
    Answer,
    /// Play a script.
    Sim,
    /// Audit journals.
    Audit,
    /// Run a node.
    Serve,
    /// Run a node until it is stopped.
    Agent,
}

/// The job of the program, and its files, in the order of the words.
#[derive(Debug, Drop)]
pub struct Job<'a> {
    pub subcommand: Subcommand,
    /// `true` if of a journal only lines with their line feeds count.
    pub is_cut: bool,
    pub files: Vec<&'a str>,
}

fn answer<'a>(alloc: Global) -> Command<'a>
    ensures app { app_of result ≡ new_app (codes "answer") }
    ensures local { (out-Command result).has_globals ≡ false }
{
    let command = Command::new(alloc, "answer").about(ANSWER_ABOUT);
    command.after_help(ANSWER_HELP)
}

fn sim<'a>(alloc: Global) -> Command<'a>
    ensures app { app_of result ≡ new_app (codes "sim") }
    ensures local { (out-Command result).has_globals ≡ false }
{
    let command = Command::new(alloc, "sim").about(SIM_ABOUT);
    command.after_help(SIM_HELP)
}

fn audit<'a>(alloc: Global) -> Result<Command<'a>, AllocError>
    ensures app { IfOk result (λ c. app_of c ≡ audit_command) }
    ensures local { IfOk result (λ c. (out-Command c).has_globals ≡ false) }
{
    let cut = Arg::new(alloc, "cut")
        .long("cut")
        .action(ArgAction::SetTrue)
        .help(CUT_HELP);
    let files = Arg::new(alloc, "file")
        .required(true)
        .action(ArgAction::Append);
    let command = Command::new(alloc, "audit").about(AUDIT_ABOUT);
    let helped = command.after_help(AUDIT_HELP);
    let with_cut = helped.arg(cut)?;
    let with_files = with_cut.arg(files)?;
    Ok(with_files)
}

fn serve<'a>(alloc: Global) -> Result<Command<'a>, AllocError>
    ensures app { IfOk result (λ c. app_of c ≡ serve_command) }
    ensures local { IfOk result (λ c. (out-Command c).has_globals ≡ false) }
{
    let file = Arg::new(alloc, "file").required(true);
    let command = Command::new(alloc, "serve").about(SERVE_ABOUT);
    let helped = command.after_help(SERVE_HELP);
    let with_file = helped.arg(file)?;
    Ok(with_file)
}

fn agent<'a>(alloc: Global) -> Result<Command<'a>, AllocError>
    ensures app { IfOk result (λ c. app_of c ≡ agent_command) }
    ensures local { IfOk result (λ c. (out-Command c).has_globals ≡ false) }
{
    let file = Arg::new(alloc, "file").required(true);
    let command = Command::new(alloc, "agent").about(AGENT_ABOUT);
    let helped = command.after_help(AGENT_HELP);
    let with_file = helped.arg(file)?;
    Ok(with_file)
}

fn top<'a>(alloc: Global) -> Result<Command<'a>, AllocError>
    ensures { IfOk result (λ c. app_of c ≡ without_name (with_version (new_app (codes "cg")))) }
{
    let command = Command::new(alloc, "cg").about(ABOUT);
    let helped = command.after_help(STATUSES);
    let named = helped.version(VERSION).bin_name("cg")?;
    Ok(named.no_binary_name(true))
}

fn command<'a>(alloc: Global) -> Result<Command<'a>, AllocError>
    ensures { IfOk result (λ c. app_of c ≡ program) }
{
    let top = top(alloc)?;
    let audit = audit(alloc)?;
    let serve = serve(alloc)?;
    let agent = agent(alloc)?;
    let with_answer = top.subcommand(answer(alloc))?;
    let with_sim = with_answer.subcommand(sim(alloc))?;
    let with_audit = with_sim.subcommand(audit)?;
    let with_serve = with_audit.subcommand(serve)?;
    let with_agent = with_serve.subcommand(agent)?;
    Ok(with_agent)
}

// Returns the matches of the words after the program's name.
fn matches<'a>(alloc: Global, words: &'a [&'a str]) -> Result<ArgMatches<'a>, Error>
    ensures ok { IfOk result (λ m. subcommand_rows_of m ≡ subcommand_in (texts words.entry.now)) }
    ensures passes { IfErr result (λ e. are_taken (texts words.entry.now) ≡ true → kind_of e ≡ ErrorKind.OutOfMemory) }
    ensures kinds { FailsBy (faults_of (texts words.entry.now)) result }
{
    let command = command(alloc)?;
    command.try_get_matches_from(words)
}

fn subcommand_named(name: &str) -> Subcommand
    ensures { result ≡ spec.subcommand_named name.now }
{
    match name {
        "sim" => Subcommand::Sim,
        "audit" => Subcommand::Audit,
        "serve" => Subcommand::Serve,
        "agent" => Subcommand::Agent,
        _ => Subcommand::Answer,
    }
}

fn files_of<'a>(alloc: Global, found: &ArgMatches<'a>) -> Result<Vec<&'a str>, AllocError>
    ensures { IfOk result (λ files. texts files.items ≡ files_in (rows_of (found_of found.now))) }
{
    match found.get_strs("file") {
        Some(files) => Vec::from_slice(alloc, files),
        None => Ok(Vec::new(alloc)),
    }
}

fn is_cut(found: &ArgMatches<'_>) -> bool
    ensures { result ≡ is_cut_in (rows_of (found_of found.now)) }
{
    match found.get_str("cut") {
        Some(value) => value == "true",
        None => false,
    }
}

/// Reads the job from the words of a command line after the program's name.
///
/// The job is the subcommand that `clap` finds, or `answer` if it finds none, with the flag and the files that it finds.
/// The error is `clap`'s; for a request of help or of the version, it is their text.
pub fn job_of<'a>(alloc: Global, words: &'a [&'a str]) -> Result<Job<'a>, Error>
    ensures subcommand { IfOk result (λ job. job.subcommand ≡ subcommand_met (subcommand_in (texts words.entry.now))) }
    ensures cut { IfOk result (λ job. job.is_cut ≡ cut_met (subcommand_in (texts words.entry.now))) }
    ensures files { IfOk result (λ job. texts job.files.items ≡ files_met (subcommand_in (texts words.entry.now))) }
    // If the words name what the command has, only memory fails.
    ensures passes { IfErr result (λ e. are_taken (texts words.entry.now) ≡ true → kind_of e ≡ ErrorKind.OutOfMemory) }
    // An error is the one that clap finds first, and there is none if clap finds none.
    ensures kinds { FailsBy (faults_of (texts words.entry.now)) result }
{
    let matches = matches(alloc, words)?;
    let Some((name, found)) = matches.subcommand() else {
        return Ok(Job {
            subcommand: Subcommand::Answer,
            is_cut: false,
            files: Vec::new(alloc),
        });
    };
    let files = files_of(alloc, found)?;
    Ok(Job {
        subcommand: subcommand_named(name),
        is_cut: is_cut(found),
        files,
    })
}
