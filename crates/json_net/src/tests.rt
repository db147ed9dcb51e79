use crate::{JsonCause, JsonError, JsonKey, Step, read_json};
use std::alloc::Global;
use std::process::Abort;
use stn_model::{AgentId, Constraint, Lean, PointId};

/// A network of one point.
const ONE: &[u8] =
    br#"{"mastn":2,"horizon":10,"agents":[{"name":"alice","points":["a"]}],"arcs":[]}"#;

/// Two agents, an act, an arc and a bound; the last of two equal keys counts.
const WORK: &[u8] =
    br#"{"arcs": [{"from": "w.e", "to": "b", "bound": -7}, {"from": "z", "to": "b", "low": 3, "high": 20}], "agents": [
    {"points": [{"act": "w", "low": 1, "high": 2}], "name": "ann"}, {"name": "bob", "lean": "late", "points": ["b"]}],
    "horizon": 1, "horizon": 100, "mastn": 2}"#;

const AGENTS: Step = Step::Key(JsonKey::Agents);

const ARCS: Step = Step::Key(JsonKey::Arcs);

const POINTS: Step = Step::Key(JsonKey::Points);

const FIRST: Step = Step::Item(0);

/// Values of the root, each with the first value that fails, and the first test that it fails.
const ROOTS: [(&[u8], &[Step], JsonCause); 9] = [
    (b"[]", &[], JsonCause::JsonKind),
    (
        br#"{"mastn":2,"horizon":10,"agents":[]}"#,
        &[],
        JsonCause::JsonMissing,
    ),
    (
        br#"{"mastn":2,"horizon":10,"agents":[],"x":1}"#,
        &[],
        JsonCause::JsonMissing,
    ),
    (
        br#"{"mastn":1,"horizon":10,"agents":[],"arcs":[],"x":1}"#,
        &[],
        JsonCause::JsonExtra,
    ),
    (
        br#"{"mastn":1,"horizon":-1,"agents":[],"arcs":[]}"#,
        &[Step::Key(JsonKey::Mastn)],
        JsonCause::Version,
    ),
    (
        br#"{"mastn":2.0,"horizon":10,"agents":[],"arcs":[]}"#,
        &[Step::Key(JsonKey::Mastn)],
        JsonCause::JsonKind,
    ),
    (
        br#"{"mastn":2,"horizon":1e1,"agents":[],"arcs":[]}"#,
        &[Step::Key(JsonKey::Horizon)],
        JsonCause::JsonKind,
    ),
    (
        br#"{"mastn":2,"horizon":-1,"agents":{},"arcs":[]}"#,
        &[Step::Key(JsonKey::Horizon)],
        JsonCause::HorizonRange,
    ),
    (
        br#"{"mastn":2,"horizon":10,"agents":{},"arcs":[]}"#,
        &[AGENTS],
        JsonCause::JsonKind,
    ),
];

/// The same of agents.
const PEOPLE: [(&[u8], &[Step], JsonCause); 8] = [
    (
        br#"{"mastn":2,"horizon":1,"agents":[1],"arcs":[]}"#,
        &[AGENTS, FIRST],
        JsonCause::JsonKind,
    ),
    (
        br#"{"mastn":2,"horizon":1,"agents":[{"name":"a","lean":"late"}],"arcs":[]}"#,
        &[AGENTS, FIRST],
        JsonCause::JsonMissing,
    ),
    (
        br#"{"mastn":2,"horizon":1,"agents":[{"name":"a","points":[],"point":[]}],"arcs":[]}"#,
        &[AGENTS, FIRST],
        JsonCause::JsonExtra,
    ),
    (
        br#"{"mastn":2,"horizon":1,"agents":[{"name":1,"lean":1,"points":1}],"arcs":[]}"#,
        &[AGENTS, FIRST, Step::Key(JsonKey::Name)],
        JsonCause::JsonKind,
    ),
    (
        br#"{"mastn":2,"horizon":1,"agents":[{"name":"1","lean":"soon","points":1}],"arcs":[]}"#,
        &[AGENTS, FIRST, Step::Key(JsonKey::Lean)],
        JsonCause::UnknownWord,
    ),
    (
        br#"{"mastn":2,"horizon":1,"agents":[{"name":"1","points":1}],"arcs":[]}"#,
        &[AGENTS, FIRST, Step::Key(JsonKey::Name)],
        JsonCause::NameBad,
    ),
    (
        br#"{"mastn":2,"horizon":1,"agents":[{"name":"a","points":1}],"arcs":[]}"#,
        &[AGENTS, FIRST, POINTS],
        JsonCause::JsonKind,
    ),
    (
        br#"{"mastn":2,"horizon":1,"agents":[{"name":"a","points":["a","a"]}],"arcs":[]}"#,
        &[AGENTS, FIRST, POINTS, Step::Item(1)],
        JsonCause::NameTaken,
    ),
];

/// The same of acts.
const ACTS: [(&[u8], &[Step], JsonCause); 5] = [
    (
        br#"{"mastn":2,"horizon":1,"agents":[{"name":"a","points":[1]}],"arcs":[]}"#,
        &[AGENTS, FIRST, POINTS, FIRST],
        JsonCause::JsonKind,
    ),
    (
        br#"{"mastn":2,"horizon":1,"agents":[{"name":"a","points":[{"act":"w","low":1}]}],"arcs":[]}"#,
        &[AGENTS, FIRST, POINTS, FIRST],
        JsonCause::JsonMissing,
    ),
    (
        br#"{"mastn":2,"horizon":1,"agents":[{"name":"a","points":[{"act":"w","low":1.5,"high":2}]}],"arcs":[]}"#,
        &[AGENTS, FIRST, POINTS, FIRST, Step::Key(JsonKey::Low)],
        JsonCause::JsonKind,
    ),
    (
        br#"{"mastn":2,"horizon":1,"agents":[{"name":"a","points":[{"act":"w","low":1,"high":9223372036854775808}]}],"arcs":[]}"#,
        &[AGENTS, FIRST, POINTS, FIRST, Step::Key(JsonKey::High)],
        JsonCause::JsonKind,
    ),
    (
        br#"{"mastn":2,"horizon":1,"agents":[{"name":"a","points":[{"act":"w","low":-1,"high":2}]}],"arcs":[]}"#,
        &[AGENTS, FIRST, POINTS, FIRST],
        JsonCause::NegativeDuration,
    ),
];

/// The same of arcs.
const JOINS: [(&[u8], &[Step], JsonCause); 8] = [
    (
        br#"{"mastn":2,"horizon":1,"agents":[],"arcs":[{"from":"z","to":"z","low":1}]}"#,
        &[ARCS, FIRST],
        JsonCause::JsonMissing,
    ),
    (
        br#"{"mastn":2,"horizon":1,"agents":[],"arcs":[{"from":"z","to":"z","low":1,"high":1,"bound":1}]}"#,
        &[ARCS, FIRST],
        JsonCause::JsonExtra,
    ),
    (
        br#"{"mastn":2,"horizon":1,"agents":[],"arcs":[{"from":"a","to":1,"bound":1}]}"#,
        &[ARCS, FIRST, Step::Key(JsonKey::From)],
        JsonCause::NameUnknown,
    ),
    (
        br#"{"mastn":2,"horizon":1,"agents":[],"arcs":[{"from":"z","to":"a","bound":"1"}]}"#,
        &[ARCS, FIRST, Step::Key(JsonKey::To)],
        JsonCause::NameUnknown,
    ),
    (
        br#"{"mastn":2,"horizon":1,"agents":[],"arcs":[{"from":"z","to":"z","bound":"1"}]}"#,
        &[ARCS, FIRST, Step::Key(JsonKey::Bound)],
        JsonCause::JsonKind,
    ),
    (
        br#"{"mastn":2,"horizon":1,"agents":[],"arcs":[{"from":"z","to":"z","bound":1099511627777}]}"#,
        &[ARCS, FIRST],
        JsonCause::SamePoint,
    ),
    (
        br#"{"mastn":2,"horizon":1,"agents":[{"name":"a","points":["a"]}],"arcs":[{"from":"a","to":"z","low":-1099511627777,"high":0}]}"#,
        &[ARCS, FIRST],
        JsonCause::BoundRange,
    ),
    (
        br#"{"mastn":2,"horizon":1,"agents":[],"arcs":null}"#,
        &[ARCS],
        JsonCause::JsonKind,
    ),
];

/// Whether the value at the end of the steps fails for that cause.
fn fails_at(error: &JsonError, steps: &[Step], cause: JsonCause) -> bool {
    if let JsonError::At { path, cause: found } = error {
        return path.steps() == steps && *found == cause;
    }
    false
}

/// The text is refused there, for that cause.
fn refused(rt: &impl Abort, alloc: Global, text: &[u8], steps: &[Step], cause: JsonCause) {
    assert!(rt; text.len() < 1000);
    let Err(error) = read_json(alloc, text) else {
        assert!(rt; false, "the text is no network");
        return;
    };
    assert!(rt;
        fails_at(&error, steps, cause),
        "another value or test fails"
    );
}

#[test]
fn refuses_roots(rt: HostRuntime) {
    for (text, steps, cause) in ROOTS {
        refused(&rt, rt.alloc(), text, steps, cause);
    }
}

#[test]
fn refuses_agents(rt: HostRuntime) {
    for (text, steps, cause) in PEOPLE {
        refused(&rt, rt.alloc(), text, steps, cause);
    }
}

#[test]
fn refuses_acts(rt: HostRuntime) {
    for (text, steps, cause) in ACTS {
        refused(&rt, rt.alloc(), text, steps, cause);
    }
}

#[test]
fn refuses_arcs(rt: HostRuntime) {
    for (text, steps, cause) in JOINS {
        refused(&rt, rt.alloc(), text, steps, cause);
    }
}

#[test]
fn refuses_what_is_no_json(rt: HostRuntime) {
    for text in [br#"{"mastn""#.as_slice(), b"", b"\xff", b"{} {}", b"1e999"] {
        assert!(rt; text.len() < 1000);
        let Err(error) = read_json(rt.alloc(), text) else {
            assert!(rt; false, "the text is no JSON");
            continue;
        };
        assert_eq!(rt; error, JsonError::JsonBad);
    }
}

#[test]
fn reads_one_point(rt: HostRuntime) {
    let Ok(net) = read_json(rt.alloc(), ONE) else {
        assert!(rt; false, "the network is read");
        return;
    };
    assert!(rt; net.agents() == 1 && net.points() == 2 && net.arcs() == 2);
    assert_eq!(rt; net.find(b"a"), Some(PointId(1)));
    assert_eq!(rt; net.lean(AgentId(0)), Lean::Early);
}

#[test]
fn reads_acts_and_arcs(rt: HostRuntime) {
    let Ok(net) = read_json(rt.alloc(), WORK) else {
        assert!(rt; false, "the network is read");
        return;
    };
    assert_eq!(rt; net.horizon(), 100);
    assert!(rt; net.acts() == 1 && net.points() == 4 && net.arcs() == 11);
    for (n, from, to, bound) in [
        (6, 1, 2, 2),
        (7, 2, 1, -1),
        (8, 2, 3, -7),
        (9, 0, 3, 20),
        (10, 3, 0, -3),
    ] {
        let (from, to) = (PointId(from), PointId(to));
        assert_eq!(rt; net.arc(n), Constraint { from, to, bound });
    }
}
