//! The least values of the base network, and texts of tables. More is tried at the program
//! (tests/program/solve.sh, tests/run/solving.py, cascade_solving.py).

use afdx_admit::{AdmitFault, Admitted};
use afdx_config::{Described, KeptKeys, Tables, Times, read_file, read_to_solve};
use afdx_solve::{SolveOptions, cascade_text, config_text, solve};
use afdx_test_samples::{base, equal, read, two_switches};
use std::alloc::Global;
use std::test::Fail;

/// No key is kept.
const FREE: SolveOptions = SolveOptions {
    kept: KeptKeys {
        jitter: false,
        buffer: false,
        latency: false,
        skew: false,
    },
    raise_only: false,
    apart: 0,
};

/// The times of the first link.
fn first_times(tables: &Tables) -> Option<Times> {
    if tables.link_count() == 0 {
        return None;
    }
    let link = tables.link(0);
    Some(Times {
        jitter_us: link.jitter_us,
        latency_us: link.latency_us,
        skew_us: link.skew_us,
    })
}

/// The buffer, and the times of the first link; or the first false line.
fn told(
    answer: &Result<Admitted, (Tables, AdmitFault)>,
) -> (u64, Option<Times>, Option<AdmitFault>) {
    match answer {
        Ok(admitted) => {
            let tables = admitted.tables();
            (tables.buffer(), first_times(tables), None)
        }
        Err((tables, fault)) => (tables.buffer(), first_times(tables), Some(*fault)),
    }
}

/// What is told of a text's tables as they are solved.
fn solved(
    alloc: Global,
    text: &str,
    options: SolveOptions,
) -> Result<(u64, Option<Times>, Option<AdmitFault>), Fail> {
    let Ok(tables) = read_to_solve(alloc, text.as_bytes(), options.kept) else {
        return Err("the text is refused".into());
    };
    let answer = solve(tables, options);
    Ok(told(&answer))
}

/// The least times of the first link.
const LEAST: Times = Times {
    jitter_us: 47,
    latency_us: 14,
    skew_us: 14,
};

#[test]
fn the_base_network(rt: HostRuntime) -> Result<(), Fail> {
    equal(solved(rt.alloc(), base(), FREE)?, (176, Some(LEAST), None))
}

/// Whether the text of the base tables spells them, as its first line says.
fn is_written(alloc: Global) -> Result<bool, Fail> {
    let tables = read(alloc, base())?;
    let Ok(text) = config_text(alloc, &tables) else {
        return Err("no memory".into());
    };
    Ok(
        text.as_str()
            .starts_with("profile = 1\nbuffer = 252\n\n[[system]]\nname = \"s1\"\n"),
    )
}

#[test]
fn a_text_of_tables(rt: HostRuntime) -> Result<(), Fail> {
    equal(is_written(rt.alloc())?, true)
}

/// Whether the text of the switches that a text describes is this text itself.
fn is_written_alike(alloc: Global, text: &str) -> Result<bool, Fail> {
    let Ok(Described::Several(switches)) = read_file(alloc, text.as_bytes()) else {
        return Err("the text is refused".into());
    };
    let Ok(written) = cascade_text(alloc, &switches) else {
        return Err("no memory".into());
    };
    Ok(written.as_str() == text)
}

#[test]
fn two_switches_are_written_as_they_stand(rt: HostRuntime) -> Result<(), Fail> {
    equal(is_written_alike(rt.alloc(), two_switches())?, true)
}
