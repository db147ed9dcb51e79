//! Runs over memory: every status, with what the sink took.
use crate::run::run;
use crate::status::Status;
use agent_worker::OpenGate;
use std::sync::Wait;
use std::test::Fail;
use std::thread::Threads;
use stn_io::{MemSink, MemSource};

const CERTIFICATE: &[u8] =
    b"mastncert 1\nconsistent 2\nfrom 0\nto 1 10 0\nholds\nfrom 1\nto 0 0 1\nholds\nend\n";

const CERTIFIED: &[u8] =
    b"mastn 1\nhorizon 10\nagent alice early\npoint alice a\nend\nmastncert 1\nconsistent 2\nfrom 0\nto 1 10 0\nholds\nfrom 1\nto 0 0 1\nholds\nend\n";

const CONFLICT: &[u8] = b"mastn 1\nhorizon 10\nagent x\npoint x a\npoint x b\nbound a b 5 3\nend\n";

const REFUTED: &[u8] =
    b"mastn 1\nhorizon 10\nagent x\npoint x a\npoint x b\nbound a b 5 3\nend\nmastncert 1\ninconsistent\ncycle 4 5\nend\n";

const TASK: &[u8] =
    b"mastn 2\nhorizon 100\nagent ann\nact ann dig 30 40\npoint ann x\narc dig.e x 5\nend\n";

const HANDOVER: &[u8] =
    b"mastn 1\nhorizon 100\nagent ann early\nagent bob early\npoint ann a1\npoint ann a2\npoint bob b1\npoint bob b2\narc z a1 20\nbound a1 a2 30 40\nbound a2 b1 0 5\nbound b1 b2 10 20\nend\n";

const STAR: &[u8] =
    b"mastn 1\nhorizon 10\nagent x early\npoint x hub\npoint x left\npoint x right\nbound hub left 0 5\nbound hub right 0 5\nend\n";

const JSON: &[u8] =
    br#"{"mastn":2,"horizon":10,"agents":[{"name":"alice","points":["a"]}],"arcs":[]}"#;

const JSON_CONFLICT: &[u8] =
    br#"{"mastn":2,"horizon":10,"agents":[{"name":"x","points":["a","b"]}],"arcs":[{"from":"a","to":"b","low":5,"high":3}]}"#;

const JSON_TAKEN: &[u8] =
    br#"{"mastn":2,"horizon":10,"agents":[{"name":"alice","points":["a","a"]}],"arcs":[]}"#;

const STORED: &[u8] = b"mastn 1\nhorizon 10\nagent alice early\npoint alice a\nend\n";

/// Runs the job of these words on this input, with a source and a sink that give and take pieces and fail at the listed calls.
fn answer(
    rt: &(impl Threads + Wait + Sync + AllocGlobal),
    words: &[&[u8]],
    input: &[u8],
    reads: (usize, &[u32]),
    writes: (usize, &[u32]),
) -> Result<(Status, Vec<u8>), Fail> {
    let alloc = rt.alloc();
    let mut given = Vec::new(alloc);
    for word in words {
        given.push(Vec::from_slice(alloc, word)?)?;
    }
    let piece = reads.0.max(1);
    let failing = Vec::from_slice(alloc, reads.1)?;
    let mut source = MemSource::new(Vec::from_slice(alloc, input)?, piece, failing);
    let piece = writes.0.max(1);
    let failing = Vec::from_slice(alloc, writes.1)?;
    let mut sink = MemSink::new(vec![in alloc; 0u8; 65536]?, piece, failing);
    let status = run(
        rt,
        alloc,
        given.as_slice(),
        &mut source,
        &mut sink,
        &OpenGate,
    );
    let taken = Vec::from_slice(alloc, sink.bytes())?;
    Ok((status, taken))
}

#[test]
fn words_have_their_answers(rt: HostRuntime) -> Result<(), Fail> {
    let (check, help, generate): (&[u8], &[u8], &[u8]) = (b"check", b"help", b"gen");
    let (zero, one, many): (&[u8], &[u8], &[u8]) = (b"0", b"0000000001", b"33");
    let (minus, long): (&[u8], &[u8]) = (b"-0", b"00000000001");
    let bad: &[u8] = b"error 0 WordsBad\n";
    let report: &[u8] = b"consistent\ntime a 0\n";
    let generated: &[u8] =
        b"mastn 1\nhorizon 1000000\nagent a0 early\npoint a0 a0p0\npoint a0 a0p1\narc a0p0 a0p1 758160\narc a0p1 a0p0 -756637\nend\nwindows\ndone\n";
    let cases: [(&[&[u8]], Status, &[u8]); 9] = [
        (&[], Status::Done, report),
        (&[check], Status::Done, report),
        (&[help], Status::WordsBad, bad),
        (&[check, check], Status::WordsBad, bad),
        (&[generate, zero], Status::WordsBad, bad),
        (&[generate, zero, one], Status::Done, generated),
        (&[generate, zero, many], Status::WordsBad, bad),
        (&[generate, minus, one], Status::WordsBad, bad),
        (&[generate, zero, long], Status::WordsBad, bad),
    ];
    for (words, status, text) in cases {
        let found = answer(&rt, words, STORED, (4096, &[]), (4096, &[]))?;
        assert_eq!(rt; found.0, status);
        assert_eq!(rt; found.1.as_slice(), text);
    }
    Ok(())
}

#[test]
fn inputs_have_their_answers(rt: HostRuntime) -> Result<(), Fail> {
    let (check, upgrade, repair): (&[u8], &[u8], &[u8]) = (b"check", b"upgrade", b"repair");
    let (certify, verify): (&[u8], &[u8]) = (b"certify", b"verify");
    let cases: [(&[u8], &[u8], Status, &[u8]); 17] = [
        (check, b"", Status::NetBad, b"error 1 NoHeader\n"),
        (
            check,
            b"mastn 1\nhorizon 10\n",
            Status::NetBad,
            b"error 3 NoEnd\n",
        ),
        (
            check,
            b"mastn 1\nhorizon 10\nend\nwhat follows\n\x80",
            Status::Done,
            b"consistent\n",
        ),
        (
            check,
            CONFLICT,
            Status::Inconsistent,
            b"inconsistent\ncycle -2 2\narc 4 a b 3\narc 5 b a -5\n",
        ),
        (
            check,
            TASK,
            Status::Done,
            b"consistent\ntime dig.s 0\ntime dig.e 30\ntime x 0\nact dig 0 30\n",
        ),
        (
            upgrade,
            STORED,
            Status::Done,
            b"mastn 2\nhorizon 10\nagent alice early\npoint alice a\nend\n",
        ),
        (
            upgrade,
            CONFLICT,
            Status::Done,
            b"mastn 2\nhorizon 10\nagent x early\npoint x a\npoint x b\narc a b 3\narc b a -5\nend\n",
        ),
        (upgrade, b"mastn 3\n", Status::NetBad, b"error 1 Version\n"),
        (repair, STORED, Status::Done, b"consistent\ntime a 0\n"),
        (
            repair,
            CONFLICT,
            Status::Inconsistent,
            b"inconsistent\ncycle -2 2\narc 4 a b 3\narc 5 b a -5\nrepair 4 2\ntime a 0\ntime b 5\ncycle -1 2\narc 4 a b 4\narc 5 b a -5\nrepair 5 2\ntime a 0\ntime b 3\ncycle -1 2\narc 4 a b 3\narc 5 b a -4\n",
        ),
        (certify, STORED, Status::Done, CERTIFICATE),
        (
            certify,
            CONFLICT,
            Status::Inconsistent,
            b"mastncert 1\ninconsistent\ncycle 4 5\nend\n",
        ),
        (verify, CERTIFIED, Status::Done, b"verified consistent\n"),
        (
            verify,
            REFUTED,
            Status::Inconsistent,
            b"verified inconsistent\n",
        ),
        (verify, STORED, Status::NotProved, b"error 6 NoEnd\n"),
        (
            verify,
            b"mastn 1\nhorizon 10\nend\nmastncert 1\nconsistent 2\n",
            Status::NotProved,
            b"error 5 WrongValue 1 2\n",
        ),
        (verify, b"", Status::NetBad, b"error 1 NoHeader\n"),
    ];
    for (word, input, status, text) in cases {
        let found = answer(&rt, &[word], input, (4096, &[]), (4096, &[]))?;
        assert_eq!(rt; found.0, status);
        assert_eq!(rt; found.1.as_slice(), text);
    }
    Ok(())
}

#[test]
fn inputs_in_json_have_their_answers(rt: HostRuntime) -> Result<(), Fail> {
    let (check, json, form): (&[u8], &[u8], &[u8]) = (b"check", b"json", b"--json");
    let cases: [(&[&[u8]], &[u8], Status, &[u8]); 6] = [
        (
            &[check, form],
            JSON,
            Status::Done,
            b"consistent\ntime a 0\n",
        ),
        (&[json], JSON, Status::Done, STORED),
        (
            &[check, form],
            JSON_CONFLICT,
            Status::Inconsistent,
            b"inconsistent\ncycle -2 2\narc 4 a b 3\narc 5 b a -5\n",
        ),
        (
            &[json],
            JSON_CONFLICT,
            Status::Done,
            b"mastn 1\nhorizon 10\nagent x early\npoint x a\npoint x b\narc a b 3\narc b a -5\nend\n",
        ),
        (
            &[check, form],
            JSON_TAKEN,
            Status::NetBad,
            b"error 0 NameTaken $/agents/0/points/1\n",
        ),
        (&[json], STORED, Status::NetBad, b"error 0 JsonBad\n"),
    ];
    for (words, input, status, text) in cases {
        let found = answer(&rt, words, input, (4096, &[]), (4096, &[]))?;
        assert_eq!(rt; found.0, status);
        assert_eq!(rt; found.1.as_slice(), text);
    }
    Ok(())
}

/// The answer of `solve`, with more words behind it, for a network with a script behind it.
fn solved(
    rt: &(impl Threads + Wait + Sync + AllocGlobal),
    more: &[&[u8]],
    net: &[u8],
    script: &[u8],
) -> Result<(Status, Vec<u8>), Fail> {
    let mut words: Vec<&[u8]> = Vec::new(rt.alloc());
    words.push(b"solve")?;
    words.extend_from_slice(more)?;
    let mut input = Vec::from_slice(rt.alloc(), net)?;
    input.extend_from_slice(script)?;
    answer(
        rt,
        words.as_slice(),
        input.as_slice(),
        (4096, &[]),
        (4096, &[]),
    )
}

#[test]
fn networks_are_solved(rt: HostRuntime) -> Result<(), Fail> {
    let (pick, degree, number): (&[u8], &[u8], &[u8]) = (b"--pick", b"degree", b"number");
    let by_degree: &[u8] = b"consistent\nprivate left\nprivate hub\nprivate right\ndone\n";
    let by_number: &[u8] = b"consistent\nprivate hub\nprivate left\nprivate right\ndone\n";
    let cases: [(&[&[u8]], &[u8], Status, &[u8]); 7] = [
        (&[], STAR, Status::Done, by_degree),
        (&[pick, degree], STAR, Status::Done, by_degree),
        (&[pick, number], STAR, Status::Done, by_number),
        (
            &[],
            CONFLICT,
            Status::Inconsistent,
            b"inconsistent\ncycle -2 2\narc 4 a b 3\narc 5 b a -5\n",
        ),
        (
            &[],
            b"mastn 1\nhorizon 0\nagent x\npoint x a\npoint x b\nbound a b 1 1\nend\n",
            Status::Inconsistent,
            b"inconsistent\ncycle -1 3\narc 1 a z 0\narc 2 z b 0\narc 5 b a -1\n",
        ),
        (
            &[],
            b"mastn 1\nhorizon 100\nagent ann early\nagent bob early\npoint ann a1\npoint ann a2\npoint bob b1\npoint bob b2\narc z a1 20\nbound a1 a2 30 40\nbound a2 b1 0 5\nbound b1 b2 10 20\narc z b1 20\nend\n",
            Status::Inconsistent,
            b"inconsistent\ncycle -10 4\narc 1 a1 z 0\narc 15 z b1 20\narc 12 b1 a2 0\narc 10 a2 a1 -30\n",
        ),
        (
            &[],
            b"mastn 1\nhorizon 100\nagent one\nagent two\nagent three\npoint one x\npoint two y\npoint three w\narc x y -5\narc y w -5\narc w x 9\nend\n",
            Status::Inconsistent,
            b"inconsistent\ncycle -1 3\narc 6 x y -5\narc 7 y w -5\narc 8 w x 9\n",
        ),
    ];
    for (more, net, status, text) in cases {
        let found = solved(&rt, more, net, b"done\n")?;
        assert_eq!(rt; found.0, status);
        assert_eq!(rt; found.1.as_slice(), text);
    }
    Ok(())
}

#[test]
fn commands_say_the_same_in_either_order(rt: HostRuntime) -> Result<(), Fail> {
    let first: &[u8] = b"consistent\nprivate a1\nprivate b2\nshared a2\nshared b1\n";
    let second: &[u8] = b"consistent\nprivate a1\nprivate b2\nshared b1\nshared a2\n";
    let cases: [(&[u8], &[u8]); 3] = [
        (
            b"# the windows alone\nwindows\ndone\n\n# behind it\n",
            b"windows 4\nwindow a1 0 20\nwindow a2 30 60\nwindow b1 30 65\nwindow b2 40 85\ndone\n",
        ),
        (
            b"bounds\ndone\n",
            b"bounds 14\nleast z a1 20\nleast z a2 60\nleast z b1 65\nleast z b2 85\nleast a1 z 0\nleast a1 a2 40\nleast a2 z -30\nleast a2 a1 -30\nleast a2 b1 5\nleast b1 z -30\nleast b1 a2 0\nleast b1 b2 20\nleast b2 z -40\nleast b2 b1 -10\ndone\n",
        ),
        (
            b"prove z b1\ndone\n",
            b"prove z b1 65 3\narc 8 z a1 20\narc 9 a1 a2 40\narc 11 a2 b1 5\ntime a1 20\ntime a2 60\ntime b1 65\ntime b2 85\ndone\n",
        ),
    ];
    for (script, said) in cases {
        let found = solved(&rt, &[], HANDOVER, script)?;
        assert_eq!(rt; found.0, Status::Done);
        let text = found.1.as_slice();
        assert!(rt; text.starts_with(first) || text.starts_with(second));
        assert!(rt; text.ends_with(said));
        assert_eq!(rt; text.len(), first.len() + said.len());
    }
    Ok(())
}

#[test]
fn bounds_of_one_point_are_told(rt: HostRuntime) -> Result<(), Fail> {
    let net: &[u8] = b"mastn 1\nhorizon 10\nagent alice early\npoint alice a\nend\n";
    let found = solved(&rt, &[], net, b"bounds\ndone\n")?;
    assert_eq!(rt; found.0, Status::Done);
    let text: &[u8] = b"consistent\nprivate a\nbounds 2\nleast z a 10\nleast a z 0\ndone\n";
    assert_eq!(rt; found.1.as_slice(), text);
    Ok(())
}

#[test]
fn scripts_are_refused(rt: HostRuntime) -> Result<(), Fail> {
    let (pick, degree, journal): (&[u8], &[u8], &[u8]) = (b"--pick", b"degree", b"--journal");
    let bad: &[u8] = b"error 0 WordsBad\n";
    let cases: [(&[&[u8]], &[u8], Status, &[u8]); 14] = [
        (
            &[],
            b"choose a1 0\n",
            Status::ScriptBad,
            b"error 14 BeforeDecouple\n",
        ),
        (
            &[],
            b"batch\nclose\n",
            Status::ScriptBad,
            b"error 15 EmptyBatch\n",
        ),
        (
            &[],
            b"batch\ndone\n",
            Status::ScriptBad,
            b"error 15 BatchOpen\n",
        ),
        (
            &[],
            b"decouple\ntighten z a1 5\n",
            Status::ScriptBad,
            b"error 15 AfterDecouple\n",
        ),
        (
            &[],
            b"prove z c\n",
            Status::ScriptBad,
            b"error 14 NameUnknown\n",
        ),
        (&[], b"", Status::ScriptBad, b"error 14 NoDone\n"),
        (
            &[],
            b"windows\ndecouple\ndone\n",
            Status::ScriptBad,
            b"error 0 NotBuilt\n",
        ),
        (
            &[],
            b"windows\ndone\n#\nx\n",
            Status::ScriptBad,
            b"error 17 AfterDone\n",
        ),
        (
            &[],
            b"done\nx\n",
            Status::ScriptBad,
            b"error 15 AfterDone\n",
        ),
        (&[journal], b"done\n", Status::WordsBad, bad),
        (&[pick], b"done\n", Status::WordsBad, bad),
        (&[pick, journal], b"done\n", Status::WordsBad, bad),
        (&[degree, degree], b"done\n", Status::WordsBad, bad),
        (
            &[pick, degree, pick, degree],
            b"done\n",
            Status::WordsBad,
            bad,
        ),
    ];
    for (more, script, status, text) in cases {
        let found = solved(&rt, more, HANDOVER, script)?;
        assert_eq!(rt; found.0, status);
        assert_eq!(rt; found.1.as_slice(), text);
    }
    Ok(())
}

#[test]
fn failing_calls_have_their_answers(rt: HostRuntime) -> Result<(), Fail> {
    for call in 1..8u32 {
        let found = answer(&rt, &[], STORED, (8, &[call]), (4096, &[]))?;
        assert_eq!(rt; found.0, Status::ReadFault, "read {call}");
        assert_eq!(rt; found.1.as_slice(), b"error 0 ReadFault\n".as_slice());
    }
    let cases: [(u32, &[u8]); 4] = [
        (1, b""),
        (2, b"consis"),
        (3, b"consistent\nt"),
        (4, b"consistent\ntime a "),
    ];
    for (call, taken) in cases {
        let found = answer(&rt, &[], STORED, (4096, &[]), (6, &[call]))?;
        assert_eq!(rt; found.0, Status::WriteFault, "write {call}");
        assert_eq!(rt; found.1.as_slice(), taken, "write {call}");
    }
    Ok(())
}

#[test]
fn a_long_input_is_refused(rt: HostRuntime) -> Result<(), Fail> {
    for (length, text) in [
        (16_777_216usize, b"error 16777217 NoHeader\n".as_slice()),
        (16_777_217, b"error 0 InputTooLong\n".as_slice()),
    ] {
        let input = vec![in rt.alloc(); b'\n'; length]?;
        let found = answer(&rt, &[], input.as_slice(), (65536, &[]), (4096, &[]))?;
        assert_eq!(rt; found.1.as_slice(), text);
    }
    Ok(())
}
