// The words of commands.
ghost use Rattle.std.specs.Prelude.{◌≡◌, ◌↔◌, Bool, true, false, List, map, string_bytes, IfOk, IfSome, IfNone, IsErrOf, ◌∷◌, [], ℕ};
ghost use Rattle.ca_commands.specs.declared.words.Verb.{Verb as A_verb};
ghost use Rattle.ca_commands.specs.Words.{PlanOptions, RunOptions, CheckOptions, SitesOptions, SaysPlan, SaysHardening, RunnerOptions, SaysRunner, SaysRun, SaysCheck, SaysSites, TraceOptions, SaysTrace, AreAbsent, Says, Command as A_command, Means, unsaid, names_of, plains_of};
ghost use Rattle.ca_commands.specs.Options.{plan_options, runner_options, run_options, check_options, sites_options, trace_options, command, verb_text, verb_of};

use crate::key::Key;
use crate::options::{Twice, are_absent, is_plain, name_at, number_of, numbers_of};
use crate::pieces::{Piece, pieces};
use ca_tree::Listed;
use std::alloc::Global;

/// How a source is hardened, where that is said.
#[derive(Drop)]
pub struct PlanWords {
    /// How often an activation may retry at one site, from 0 to 10,000.
    pub limit: Option<u32>,
    /// How many calls are gone up, from 0 to 8.
    pub depth: Option<u32>,
    /// The numbers of the sites that are taken, at most 256.
    pub only: Option<Listed<u32>>,
}

/// How the runner goes, where that is said.
#[derive(Drop)]
pub struct RunnerWords {
    /// The most entries of the run, from 1 to 2,000,000.
    pub events: Option<u32>,
    /// After how many entries of others a thread has waited out at a held lock, from 0 to 1,000.
    pub patience: Option<u32>,
    /// The threads that move, each from 0 to 63, where they are listed.
    pub schedule: Option<Listed<u32>>,
    /// The seed of the schedule.
    pub seed: Option<u32>,
}

/// What `run` is asked to do.
#[derive(Drop)]
pub struct RunWords {
    /// The file of the source.
    pub name: String,
    /// Whether it is run without hardening.
    pub plain: bool,
    /// How it is hardened.
    pub plan: PlanWords,
    /// How the runner goes.
    pub runner: RunnerWords,
}

/// What `check` is asked to do.
#[derive(Drop)]
pub struct CheckWords {
    /// The file of the source.
    pub name: String,
    /// The file of the trace.
    pub trace: String,
    /// Whether the trace is of the source without hardening.
    pub plain: bool,
    /// How the source is hardened.
    pub plan: PlanWords,
}

/// What `sites` is asked to do.
#[derive(Drop)]
pub struct SitesWords {
    /// The file of the source.
    pub name: String,
    /// How it would be hardened; no limit is said.
    pub plan: PlanWords,
}

/// What `project` and `lift` are asked to do.
#[derive(Drop)]
pub struct TraceWords {
    /// The file of the source.
    pub name: String,
    /// The file of the trace.
    pub trace: String,
    /// How the source is hardened.
    pub plan: PlanWords,
}

/// A command with what it is asked to do.
#[derive(Drop)]
pub enum CommandWords {
    Run(RunWords),
    Check(CheckWords),
    Sites(SitesWords),
    Project(TraceWords),
    Lift(TraceWords),
}

/// Why words are no command.
#[derive(Clone, Copy, Debug, PartialEq, Eq)]
pub enum WordsNo {
    /// They don't say what is to be done.
    Misworded,
    /// An allocation was refused.
    NoMemory,
}

fn plan_words(alloc: Global, pieces: &[Piece<'_>]) -> Result<PlanWords, WordsNo>
    ensures found { IfOk result (λ w. SaysPlan pieces.now (plan_options w)) }
    ensures misworded { IsErrOf result WordsNo.Misworded → (o : PlanOptions) → SaysPlan pieces.now o → ⊥ }
{
    let Ok(limit) = number_of(pieces, Key::Limit, 0, 10_000) else {
        return Err(WordsNo::Misworded);
    };
    let Ok(depth) = number_of(pieces, Key::Depth, 0, 8) else {
        return Err(WordsNo::Misworded);
    };
    match numbers_of(alloc, pieces, Key::Only, 256, u32::MAX) {
        Ok(only) => Ok(PlanWords { limit, depth, only }),
        Err(WordsNo::Misworded) => Err(WordsNo::Misworded),
        Err(WordsNo::NoMemory) => Err(WordsNo::NoMemory),
    }
}

// Whether nothing is said of the plan.
fn is_unsaid(words: &PlanWords) -> bool
    ensures { (result ≡ true) ↔ (plan_options words.now ≡ unsaid) }
{
    words.limit.is_none() && words.depth.is_none() && words.only.is_none()
}

// Whether the source is run without hardening, and otherwise how it is hardened.
fn hardening(alloc: Global, pieces: &[Piece<'_>]) -> Result<(bool, PlanWords), WordsNo>
    ensures found { IfOk result (λ r. SaysHardening pieces.now r.0 (plan_options r.1)) }
    ensures misworded { IsErrOf result WordsNo.Misworded → (plain : Bool) (o : PlanOptions) → SaysHardening pieces.now plain o → ⊥ }
{
    let Ok(plain) = is_plain(pieces) else {
        return Err(WordsNo::Misworded);
    };
    let plan = match plan_words(alloc, pieces) {
        Ok(plan) => plan,
        Err(WordsNo::Misworded) => return Err(WordsNo::Misworded),
        Err(WordsNo::NoMemory) => return Err(WordsNo::NoMemory),
    };
    if plain && !is_unsaid(&plan) {
        return Err(WordsNo::Misworded);
    }
    Ok((plain, plan))
}

// The one name.
fn one_name<'a>(pieces: &[Piece<'a>]) -> Option<&'a str>
    ensures found { IfSome result (λ n. names_of pieces.now ≡ n.now ∷ []) }
    ensures none { IfNone result ((n : List ℕ) → names_of pieces.now ≡ n ∷ [] → ⊥) }
{
    let Some(name) = name_at(pieces, 0) else {
        return None;
    };
    match name_at(pieces, 1) {
        Some(_) => None,
        None => Some(name),
    }
}

// The two names.
fn two_names<'a>(pieces: &[Piece<'a>]) -> Option<(&'a str, &'a str)>
    ensures found { IfSome result (λ r. names_of pieces.now ≡ r.0.now ∷ r.1.now ∷ []) }
    ensures none { IfNone result ((n m : List ℕ) → names_of pieces.now ≡ n ∷ m ∷ [] → ⊥) }
{
    let Some(first) = name_at(pieces, 0) else {
        return None;
    };
    let Some(second) = name_at(pieces, 1) else {
        return None;
    };
    match name_at(pieces, 2) {
        Some(_) => None,
        None => Some((first, second)),
    }
}

fn runner_words(alloc: Global, pieces: &[Piece<'_>]) -> Result<RunnerWords, WordsNo>
    ensures found { IfOk result (λ w. SaysRunner pieces.now (runner_options w)) }
    ensures misworded { IsErrOf result WordsNo.Misworded → (o : RunnerOptions) → SaysRunner pieces.now o → ⊥ }
{
    let Ok(events) = number_of(pieces, Key::Events, 1, 2_000_000) else {
        return Err(WordsNo::Misworded);
    };
    let Ok(patience) = number_of(pieces, Key::Patience, 0, 1_000) else {
        return Err(WordsNo::Misworded);
    };
    let Ok(seed) = number_of(pieces, Key::Seed, 0, u32::MAX) else {
        return Err(WordsNo::Misworded);
    };
    let schedule = match numbers_of(alloc, pieces, Key::Schedule, 100_000, 63) {
        Ok(schedule) => schedule,
        Err(WordsNo::Misworded) => return Err(WordsNo::Misworded),
        Err(WordsNo::NoMemory) => return Err(WordsNo::NoMemory),
    };
    if schedule.is_some() && seed.is_some() {
        return Err(WordsNo::Misworded);
    }
    Ok(RunnerWords {
        events,
        patience,
        schedule,
        seed,
    })
}

fn run_words(alloc: Global, pieces: &[Piece<'_>]) -> Result<RunWords, WordsNo>
    ensures found { IfOk result (λ w. SaysRun pieces.now (run_options w)) }
    ensures misworded { IsErrOf result WordsNo.Misworded → (o : RunOptions) → SaysRun pieces.now o → ⊥ }
{
    let Some(word) = one_name(pieces) else {
        return Err(WordsNo::Misworded);
    };
    let (plain, plan) = match hardening(alloc, pieces) {
        Ok(hardening) => hardening,
        Err(WordsNo::Misworded) => return Err(WordsNo::Misworded),
        Err(WordsNo::NoMemory) => return Err(WordsNo::NoMemory),
    };
    let runner = match runner_words(alloc, pieces) {
        Ok(runner) => runner,
        Err(WordsNo::Misworded) => return Err(WordsNo::Misworded),
        Err(WordsNo::NoMemory) => return Err(WordsNo::NoMemory),
    };
    let Ok(name) = String::from_str(alloc, word) else {
        return Err(WordsNo::NoMemory);
    };
    Ok(RunWords {
        name,
        plain,
        plan,
        runner,
    })
}

const RUNNER_KEYS: [Key; 4] = [Key::Events, Key::Patience, Key::Schedule, Key::Seed];

fn check_words(alloc: Global, pieces: &[Piece<'_>]) -> Result<CheckWords, WordsNo>
    ensures found { IfOk result (λ w. SaysCheck pieces.now (check_options w)) }
    ensures misworded { IsErrOf result WordsNo.Misworded → (o : CheckOptions) → SaysCheck pieces.now o → ⊥ }
{
    let Some((first, second)) = two_names(pieces) else {
        return Err(WordsNo::Misworded);
    };
    if !are_absent(pieces, &RUNNER_KEYS) {
        return Err(WordsNo::Misworded);
    }
    let (plain, plan) = match hardening(alloc, pieces) {
        Ok(hardening) => hardening,
        Err(WordsNo::Misworded) => return Err(WordsNo::Misworded),
        Err(WordsNo::NoMemory) => return Err(WordsNo::NoMemory),
    };
    let Ok(name) = String::from_str(alloc, first) else {
        return Err(WordsNo::NoMemory);
    };
    let Ok(trace) = String::from_str(alloc, second) else {
        return Err(WordsNo::NoMemory);
    };
    Ok(CheckWords {
        name,
        trace,
        plain,
        plan,
    })
}

// Whether `--plain` stands there.
fn has_plain(pieces: &[Piece<'_>]) -> bool
    ensures { (result ≡ false) ↔ (plains_of pieces.now ≡ 0) }
{
    match is_plain(pieces) {
        Ok(plain) => plain,
        Err(Twice) => true,
    }
}

// How the source is hardened, where `--plain` doesn't stand there, nor any of some options.
fn plan_alone(alloc: Global, pieces: &[Piece<'_>], others: &[Key]) -> Result<PlanWords, WordsNo>
    ensures found { IfOk result (λ w. SaysPlan pieces.now (plan_options w)) }
    ensures alone { IfOk result (λ w. (plains_of pieces.now ≡ 0) × AreAbsent others.now pieces.now) }
    ensures misworded { IsErrOf result WordsNo.Misworded → (o : PlanOptions) → SaysPlan pieces.now o → plains_of pieces.now ≡ 0 → AreAbsent others.now pieces.now → ⊥ }
{
    if has_plain(pieces) || !are_absent(pieces, others) {
        return Err(WordsNo::Misworded);
    }
    match plan_words(alloc, pieces) {
        Ok(plan) => Ok(plan),
        Err(WordsNo::Misworded) => Err(WordsNo::Misworded),
        Err(WordsNo::NoMemory) => Err(WordsNo::NoMemory),
    }
}

const BEYOND_SITES: [Key; 5] = [
    Key::Limit,
    Key::Events,
    Key::Patience,
    Key::Schedule,
    Key::Seed,
];

fn sites_words(alloc: Global, pieces: &[Piece<'_>]) -> Result<SitesWords, WordsNo>
    ensures found { IfOk result (λ w. SaysSites pieces.now (sites_options w)) }
    ensures misworded { IsErrOf result WordsNo.Misworded → (o : SitesOptions) → SaysSites pieces.now o → ⊥ }
{
    let Some(word) = one_name(pieces) else {
        return Err(WordsNo::Misworded);
    };
    let plan = match plan_alone(alloc, pieces, &BEYOND_SITES) {
        Ok(plan) => plan,
        Err(WordsNo::Misworded) => return Err(WordsNo::Misworded),
        Err(WordsNo::NoMemory) => return Err(WordsNo::NoMemory),
    };
    let Ok(name) = String::from_str(alloc, word) else {
        return Err(WordsNo::NoMemory);
    };
    Ok(SitesWords { name, plan })
}

fn trace_words(alloc: Global, pieces: &[Piece<'_>]) -> Result<TraceWords, WordsNo>
    ensures found { IfOk result (λ w. SaysTrace pieces.now (trace_options w)) }
    ensures misworded { IsErrOf result WordsNo.Misworded → (o : TraceOptions) → SaysTrace pieces.now o → ⊥ }
{
    let Some((first, second)) = two_names(pieces) else {
        return Err(WordsNo::Misworded);
    };
    let plan = match plan_alone(alloc, pieces, &RUNNER_KEYS) {
        Ok(plan) => plan,
        Err(WordsNo::Misworded) => return Err(WordsNo::Misworded),
        Err(WordsNo::NoMemory) => return Err(WordsNo::NoMemory),
    };
    let Ok(name) = String::from_str(alloc, first) else {
        return Err(WordsNo::NoMemory);
    };
    let Ok(trace) = String::from_str(alloc, second) else {
        return Err(WordsNo::NoMemory);
    };
    Ok(TraceWords { name, trace, plan })
}

// Which command it is.
#[derive(Clone, Copy, Debug, PartialEq, Eq)]
enum Verb {
    Run,
    Check,
    Sites,
    Project,
    Lift,
}

fn verb_named(word: &str) -> Option<Verb>
    ensures found { IfSome result (λ v. word.now ≡ verb_text v) }
    ensures none { IfNone result ((v : A_verb) → word.now ≡ verb_text v → ⊥) }
{
    if word == "run" {
        Some(Verb::Run)
    } else if word == "check" {
        Some(Verb::Check)
    } else if word == "sites" {
        Some(Verb::Sites)
    } else if word == "project" {
        Some(Verb::Project)
    } else if word == "lift" {
        Some(Verb::Lift)
    } else {
        None
    }
}

// What the pieces behind a command's word ask.
fn asked(alloc: Global, verb: Verb, pieces: &[Piece<'_>]) -> Result<CommandWords, WordsNo>
    ensures found { IfOk result (λ w. Says pieces.now (command w) × (verb_of (command w) ≡ verb)) }
    ensures misworded { IsErrOf result WordsNo.Misworded → (c : A_command) → verb_of c ≡ verb → Says pieces.now c → ⊥ }
{
    match verb {
        Verb::Run => Ok(CommandWords::Run(run_words(alloc, pieces)?)),
        Verb::Check => Ok(CommandWords::Check(check_words(alloc, pieces)?)),
        Verb::Sites => Ok(CommandWords::Sites(sites_words(alloc, pieces)?)),
        Verb::Project => Ok(CommandWords::Project(trace_words(alloc, pieces)?)),
        Verb::Lift => Ok(CommandWords::Lift(trace_words(alloc, pieces)?)),
    }
}

// The first word, and those behind it.
fn first_word(words: &[String]) -> Option<(&str, &[String])>
    ensures found { IfSome result (λ r. map string_bytes words.now ≡ r.0.now ∷ map string_bytes r.1.now) }
    ensures none { IfNone result ((w : List ℕ) (behind : List (List ℕ)) → map string_bytes words.now ≡ w ∷ behind → ⊥) }
{
    let (first, behind) = words.split_first()?;
    Some((first.as_str(), behind))
}

/// The command that words are: `run FILE`, `check FILE TRACE`, `sites FILE`, `project FILE TRACE` or `lift FILE TRACE`, with
/// options of the command, each at most once and in any place before a word `--`, behind which all words are names. A value
/// stands in the next word or behind `=`. Numbers are decimal digits without a leading zero, lists numbers with commas
/// between them.
///
/// `run` takes `--plain`, `--limit`, `--depth`, `--only`, `--events`, `--patience`, `--schedule` and `--seed`; `check` the
/// first four; `project` and `lift` take `--limit`, `--depth` and `--only`; `sites` takes `--depth` and `--only`. `--plain`
/// stands with none of the three behind it, and `--schedule` not with `--seed`.
pub fn command_words(alloc: Global, words: &[String]) -> Result<CommandWords, WordsNo>
    ensures found { IfOk result (λ w. Means (map string_bytes words.now) (command w)) }
    ensures misworded { IsErrOf result WordsNo.Misworded → (c : A_command) → Means (map string_bytes words.now) c → ⊥ }
{
    let Some((first, behind)) = first_word(words) else {
        return Err(WordsNo::Misworded);
    };
    let Some(verb) = verb_named(first) else {
        return Err(WordsNo::Misworded);
    };
    let pieces = match pieces(alloc, behind) {
        Ok(pieces) => pieces,
        Err(WordsNo::Misworded) => return Err(WordsNo::Misworded),
        Err(WordsNo::NoMemory) => return Err(WordsNo::NoMemory),
    };
    asked(alloc, verb, &pieces)
}
