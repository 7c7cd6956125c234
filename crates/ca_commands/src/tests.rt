// Words that are commands, and words that are refused.
use super::{CommandWords, PlanWords, RunnerWords, TraceWords, WordsNo, command_words};
use ca_tree::Listed;
use std::alloc::Global;
use std::process::Abort;
use std::test::Fail;

fn read(alloc: Global, texts: &[&str]) -> Result<Result<CommandWords, WordsNo>, Fail> {
    let mut words = Vec::new(alloc);
    for text in texts {
        words.push(String::from_str(alloc, text)?)?;
    }
    Ok(command_words(alloc, &words))
}

// What the words of a command say.
#[derive(Clone, Copy)]
struct Wanted<'a> {
    name: &'a str,
    plain: bool,
    limit: Option<u32>,
    depth: Option<u32>,
    only: Option<&'a [u32]>,
    events: Option<u32>,
    patience: Option<u32>,
    schedule: Option<&'a [u32]>,
    seed: Option<u32>,
}

const NOTHING: Wanted<'static> = Wanted {
    name: "a.c",
    plain: false,
    limit: None,
    depth: None,
    only: None,
    events: None,
    patience: None,
    schedule: None,
    seed: None,
};

fn numbers(list: &Option<Listed<u32>>) -> Option<&[u32]> {
    list.as_ref().map(|list| list.as_slice())
}

fn plan_is(rt: &impl Abort, words: &PlanWords, wanted: Wanted<'_>) {
    assert_eq!(rt; words.limit, wanted.limit);
    assert_eq!(rt; words.depth, wanted.depth);
    assert_eq!(rt; numbers(&words.only), wanted.only);
}

fn runner_is(rt: &impl Abort, words: &RunnerWords, wanted: Wanted<'_>) {
    assert_eq!(rt; words.events, wanted.events);
    assert_eq!(rt; words.patience, wanted.patience);
    assert_eq!(rt; numbers(&words.schedule), wanted.schedule);
    assert_eq!(rt; words.seed, wanted.seed);
}

fn says(rt: &impl Abort, alloc: Global, texts: &[&str], wanted: Wanted<'_>) -> Result<(), Fail> {
    let found = read(alloc, texts)?;
    match &found {
        Ok(CommandWords::Run(words)) => {
            assert_eq!(rt; words.name.as_str(), wanted.name);
            assert_eq!(rt; words.plain, wanted.plain);
            plan_is(rt, &words.plan, wanted);
            runner_is(rt, &words.runner, wanted);
        }
        Ok(_) => assert!(rt; false),
        Err(_) => assert!(rt; false),
    }
    Ok(())
}

const EACH_ORDER: [&[&str]; 3] = [
    &[
        "run",
        "--plain",
        "--events",
        "2000000",
        "--schedule",
        "0,63,1",
        "a.c",
        "--patience",
        "0",
    ],
    &[
        "run",
        "--schedule=0,63,1",
        "a.c",
        "--patience=0",
        "--events=2000000",
        "--plain",
    ],
    &[
        "run",
        "--events=2000000",
        "--plain",
        "--patience",
        "0",
        "--schedule",
        "0,63,1",
        "--",
        "a.c",
    ],
];

#[test]
fn options_stand_in_any_order(rt: HostRuntime) -> Result<(), Fail> {
    let alloc = rt.alloc();
    says(&rt, alloc, &["run", "a.c"], NOTHING)?;
    let all = Wanted {
        plain: true,
        events: Some(2000000),
        patience: Some(0),
        schedule: Some(&[0, 63, 1]),
        ..NOTHING
    };
    for words in EACH_ORDER {
        says(&rt, alloc, words, all)?;
    }
    let hardened = Wanted {
        limit: Some(10000),
        depth: Some(8),
        only: Some(&[2, 4294967295, 2]),
        events: Some(1),
        patience: Some(1000),
        seed: Some(4294967295),
        ..NOTHING
    };
    says(
        &rt,
        alloc,
        &[
            "run",
            "--seed",
            "4294967295",
            "--events",
            "1",
            "--limit=10000",
            "a.c",
            "--depth",
            "8",
            "--only=2,4294967295,2",
            "--patience",
            "1000",
        ],
        hardened,
    )?;
    let zero = Wanted {
        limit: Some(0),
        depth: Some(0),
        only: Some(&[0]),
        seed: Some(0),
        ..NOTHING
    };
    says(
        &rt,
        alloc,
        &[
            "run",
            "a.c",
            "--seed=0",
            "--limit",
            "0",
            "--depth=0",
            "--only",
            "0",
        ],
        zero,
    )
}

#[test]
fn behind_two_dashes_all_words_are_names(rt: HostRuntime) -> Result<(), Fail> {
    let alloc = rt.alloc();
    for name in ["-a.c", "--plain", "--", "--seed=1", "a.c", ""] {
        says(&rt, alloc, &["run", "--", name], Wanted { name, ..NOTHING })?;
    }
    says(&rt, alloc, &["run", "a.c", "--"], NOTHING)
}

#[test]
fn a_check_names_a_source_and_a_trace(rt: HostRuntime) -> Result<(), Fail> {
    let found = read(rt.alloc(), &["check", "a.c", "--plain", "--", "-t.txt"])?;
    match &found {
        Ok(CommandWords::Check(words)) => {
            assert_eq!(&rt; words.name.as_str(), "a.c");
            assert_eq!(&rt; words.trace.as_str(), "-t.txt");
            assert!(&rt; words.plain);
            plan_is(&rt, &words.plan, NOTHING);
        }
        Ok(_) => assert!(&rt; false),
        Err(_) => assert!(&rt; false),
    }
    let found = read(
        rt.alloc(),
        &["check", "--limit=5", "a.c", "t.txt", "--only", "1,2"],
    )?;
    match &found {
        Ok(CommandWords::Check(words)) => {
            assert!(&rt; !words.plain);
            plan_is(
                &rt,
                &words.plan,
                Wanted {
                    limit: Some(5),
                    only: Some(&[1, 2]),
                    ..NOTHING
                },
            );
        }
        Ok(_) => assert!(&rt; false),
        Err(_) => assert!(&rt; false),
    }
    Ok(())
}

#[test]
fn sites_take_a_depth_and_numbers(rt: HostRuntime) -> Result<(), Fail> {
    let found = read(rt.alloc(), &["sites", "--depth", "3", "a.c", "--only=9"])?;
    match &found {
        Ok(CommandWords::Sites(words)) => {
            assert_eq!(&rt; words.name.as_str(), "a.c");
            plan_is(
                &rt,
                &words.plan,
                Wanted {
                    depth: Some(3),
                    only: Some(&[9]),
                    ..NOTHING
                },
            );
        }
        Ok(_) => assert!(&rt; false),
        Err(_) => assert!(&rt; false),
    }
    Ok(())
}

fn trace_is(rt: &impl Abort, words: &TraceWords, wanted: Wanted<'_>) {
    assert_eq!(rt; words.name.as_str(), wanted.name);
    assert_eq!(rt; words.trace.as_str(), "t.txt");
    plan_is(rt, &words.plan, wanted);
}

#[test]
fn projections_and_lifts_name_a_source_and_a_trace(rt: HostRuntime) -> Result<(), Fail> {
    let alloc = rt.alloc();
    let all = Wanted {
        limit: Some(7),
        depth: Some(0),
        only: Some(&[3, 1]),
        ..NOTHING
    };
    let found = read(
        alloc,
        &[
            "project",
            "a.c",
            "--depth=0",
            "t.txt",
            "--limit",
            "7",
            "--only=3,1",
        ],
    )?;
    match &found {
        Ok(CommandWords::Project(words)) => trace_is(&rt, words, all),
        Ok(_) => assert!(&rt; false),
        Err(_) => assert!(&rt; false),
    }
    let found = read(alloc, &["lift", "--", "a.c", "t.txt"])?;
    match &found {
        Ok(CommandWords::Lift(words)) => trace_is(&rt, words, NOTHING),
        Ok(_) => assert!(&rt; false),
        Err(_) => assert!(&rt; false),
    }
    Ok(())
}

const REFUSED: [&[&str]; 76] = [
    &[],
    &["run"],
    &["a.c"],
    &["Run", "a.c"],
    &["check", "a.c"],
    &["run", "a.c", "b.c"],
    &["run", "-"],
    &["run", "--", "-"],
    &["run", "--"],
    &["run", "-a.c"],
    &["run", "a.c", "-p"],
    &["run", "a.c", "--", "b.c"],
    &["run", "--plain"],
    &["run", "--plain", "--plain", "a.c"],
    &["run", "--plain=", "a.c"],
    &["run", "--plain=1", "a.c"],
    &["run", "--workers", "2", "a.c"],
    &["run", "--event", "2", "a.c"],
    &["run", "a.c", "--events"],
    &["run", "--events", "a.c"],
    &["run", "--events", "0", "a.c"],
    &["run", "--events=", "a.c"],
    &["run", "--events", "2000001", "a.c"],
    &["run", "--events", "007", "a.c"],
    &["run", "--events", "+7", "a.c"],
    &["run", "--events", "-7", "a.c"],
    &["run", "--events", "7 ", "a.c"],
    &["run", "--events", "7", "--events", "7", "a.c"],
    &["run", "--events", "7", "--events=7", "a.c"],
    &["run", "--schedule", "64", "a.c"],
    &["run", "--schedule", "0,", "a.c"],
    &["run", "--schedule", ",0", "a.c"],
    &["run", "--schedule", "0,,1", "a.c"],
    &["run", "--schedule", "0, 1", "a.c"],
    &["run", "--schedule", "00", "a.c"],
    &["run", "--schedule", "", "a.c"],
    &["run", "--schedule", "--", "a.c"],
    &["run", "--schedule", "0", "--schedule", "0", "a.c"],
    &["run", "--seed", "4294967296", "a.c"],
    &["run", "--seed", "99999999999999999999", "a.c"],
    &["run", "--seed", "1", "--seed", "1", "a.c"],
    &["run", "--seed", "1", "--schedule", "0", "a.c"],
    &["run", "--schedule=0", "a.c", "--seed=1"],
    &["run", "--seed", "1", "a.c", "--schedule"],
    &["run", "--plain", "--limit", "1", "a.c"],
    &["run", "--plain", "--depth=1", "a.c"],
    &["run", "--only=1", "a.c", "--plain"],
    &["run", "--limit", "10001", "a.c"],
    &["run", "--limit", "05", "a.c"],
    &["run", "--depth", "9", "a.c"],
    &["run", "--patience", "1001", "a.c"],
    &["run", "--only", "4294967296", "a.c"],
    &["run", "--only", "1 ,2", "a.c"],
    &["run", "--only=1", "--only=1", "a.c"],
    &["run", "a.c", "--limit", "5", "--limit", "5"],
    &["run", "--hardened", "a.c"],
    &["check", "a.c", "b.txt", "c"],
    &["check", "a.c", "-"],
    &["check", "--seed=1", "a.c", "b.txt"],
    &["check", "--events", "1", "a.c", "b.txt"],
    &["check", "--plain", "--limit=1", "a.c", "b.txt"],
    &["check", "--patience=1", "a.c", "b.txt"],
    &["check", "--schedule=1", "a.c", "b.txt"],
    &["sites"],
    &["sites", "a.c", "b.c"],
    &["sites", "--plain", "a.c"],
    &["sites", "--limit", "1", "a.c"],
    &["sites", "--seed", "1", "a.c"],
    &["project", "a.c"],
    &["project", "a.c", "t.txt", "u.txt"],
    &["project", "--plain", "a.c", "t.txt"],
    &["project", "--limit", "10001", "a.c", "t.txt"],
    &["lift"],
    &["lift", "a.c", "t.txt", "--plain"],
    &["lift", "a.c", "t.txt", "--events=1"],
    &["lift", "a.c", "-", "--depth", "1"],
];

#[test]
fn other_words_are_refused(rt: HostRuntime) -> Result<(), Fail> {
    for words in REFUSED {
        let found = read(rt.alloc(), words)?;
        match &found {
            Ok(_) => assert!(&rt; false),
            Err(no) => assert_eq!(&rt; *no, WordsNo::Misworded),
        }
    }
    Ok(())
}

// So many numbers, each the same.
fn repeated(alloc: Global, number: &str, count: u32) -> Result<String, Fail> {
    let mut text = String::from_str(alloc, number)?;
    for _ in 1..count {
        text.push_str(",")?;
        text.push_str(number)?;
    }
    Ok(text)
}

#[test]
fn a_schedule_has_up_to_100_000_numbers(rt: HostRuntime) -> Result<(), Fail> {
    let alloc = rt.alloc();
    let text = repeated(alloc, "0", 100000)?;
    let found = read(alloc, &["run", "--schedule", text.as_str(), "a.c"])?;
    match &found {
        Ok(CommandWords::Run(words)) => {
            let count = numbers(&words.runner.schedule).map(|list| list.len());
            assert_eq!(&rt; count, Some(100000));
        }
        Ok(_) => assert!(&rt; false),
        Err(_) => assert!(&rt; false),
    }
    let more = repeated(alloc, "0", 100001)?;
    assert!(&rt; read(alloc, &["run", "--schedule", more.as_str(), "a.c"])?.is_err());
    Ok(())
}

#[test]
fn up_to_256_sites_are_named(rt: HostRuntime) -> Result<(), Fail> {
    let alloc = rt.alloc();
    let text = repeated(alloc, "7", 256)?;
    assert!(&rt; read(alloc, &["sites", "--only", text.as_str(), "a.c"])?.is_ok());
    let more = repeated(alloc, "7", 257)?;
    assert!(&rt; read(alloc, &["sites", "--only", more.as_str(), "a.c"])?.is_err());
    Ok(())
}
