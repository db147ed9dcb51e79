//! Certificates of small networks: those that are accepted, and for each cause those that are refused for it, also where a line has two faults.
ghost use Rattle.std.specs.Prelude.{◌<◌, ◌≤◌, IfOk, IsTrue, length};
ghost use Rattle.stn_model.specs.Net.{arcs_of, point_count};
ghost use Rattle.stn_model.specs.Schedules.{IsConsistent};

use super::*;
use std::alloc::Global;
use std::process::Abort;
use stn_model::{Network, OutOfMemory};

/// Whether the certificate shows that some schedule satisfies the network.
fn is_shown(alloc: Global, net: &Network, certificate: &[u8]) -> Result<bool, OutOfMemory>
    requires few_points { point_count net.now ≤ 256 }
    requires few_bytes { length certificate.now < 1000000 }
    ensures { IfOk result (λ b. IsTrue b → IsConsistent (point_count net.now) (arcs_of net.now)) }
{
    match check_certificate(alloc, net, certificate, 1)? {
        Verdict::Consistent => Ok(true),
        _ => Ok(false),
    }
}

/// One point; the certificate of it begins at line 6.
const ALONE: &[u8] = b"mastn 1\nhorizon 10\nagent x\npoint x a\nend\n";

/// The same with an arc of number 2; the certificate begins at line 7.
const TIGHT: &[u8] = b"mastn 1\nhorizon 10\nagent x\npoint x a\narc z a 7\nend\n";

/// Two points with arcs 4 and 5 between them that sum to -2; the certificate begins at line 8.
const REVERSED: &[u8] = b"mastn 1\nhorizon 10\nagent x\npoint x a\npoint x b\nbound a b 5 3\nend\n";

/// Two points with arcs 4 and 5 between them that sum to 0; the certificate begins at line 8.
const RIGID: &[u8] = b"mastn 1\nhorizon 10\nagent x\npoint x a\npoint x b\nbound a b 3 3\nend\n";

/// The answer for a certificate that follows a network's text.
fn answer(rt: &impl Abort, alloc: Global, network: &[u8], certificate: &[u8]) -> Verdict {
    assert!(rt; network.len() < 1000);
    let Ok(read) = net_text::read_net(alloc, network) else {
        assert!(rt; false, "the network is read");
        return Verdict::Inconsistent;
    };
    assert!(rt; read.net.points() <= 256);
    assert!(rt; read.lines < 1000);
    assert!(rt; certificate.len() < 1000);
    let Ok(verdict) = check_certificate(alloc, &read.net, certificate, read.lines + 1) else {
        assert!(rt; false, "memory is there");
        return Verdict::Inconsistent;
    };
    verdict
}

#[test]
fn accepts_certificates(rt: HostRuntime) {
    for (network, certificate, verdict) in [
        (
            ALONE,
            b"mastncert 1\nconsistent 2\nfrom 0\nto 1 10 0\nholds\nfrom 1\nto 0 0 1\nholds\nend\n".as_slice(),
            Verdict::Consistent,
        ),
        (
            ALONE,
            b"# \xff\nmastncert 1\r\n\nconsistent 02\nfrom -0\n to 1\t10 0 \nholds\nfrom 1\nto 0 -0 1\nholds\nend\n#\xff\n \t".as_slice(),
            Verdict::Consistent,
        ),
        (
            RIGID,
            b"mastncert 1\nconsistent 3\nfrom 0\nto 2 10 2\nto 1 7 5\nholds\nfrom 1\nto 0 0 1\nto 2 3 4\nholds\nfrom 2\nto 1 -3 5\nto 0 -3 1\nholds\nend".as_slice(),
            Verdict::Consistent,
        ),
        (
            REVERSED,
            b"mastncert 1\ninconsistent\ncycle 4 5\nend\n".as_slice(),
            Verdict::Inconsistent,
        ),
    ] {
        assert_eq!(rt; answer(&rt, rt.alloc(), network, certificate), verdict);
    }
}

/// Each certificate of one point, with its first false line.
const REFUSED: [(&[u8], u32, CertCause); 40] = [
    (b"", 6, CertCause::NoEnd),
    (b"# \xff\n\r", 7, CertCause::NoEnd),
    (b"mastncert 1\n", 7, CertCause::NoEnd),
    (b"\xff", 6, CertCause::NotText),
    (b"mastncert 1\n\xff", 7, CertCause::NotText),
    (b"consistent 2", 6, CertCause::NoHeader),
    (b"mastncert", 6, CertCause::FieldCount),
    (b"mastncert 2 2", 6, CertCause::FieldCount),
    (b"mastncert 2", 6, CertCause::Version),
    (b"mastncert 1\nmastncert 1", 7, CertCause::UnknownWord),
    (b"mastncert 1\nholds 1", 7, CertCause::UnknownWord),
    (b"mastncert 1\nconsistent", 7, CertCause::FieldCount),
    (b"mastncert 1\nconsistent two", 7, CertCause::NumberBad),
    (
        b"mastncert 1\nconsistent -2",
        7,
        CertCause::WrongValue { kept: 2, given: -2 },
    ),
    (
        b"mastncert 1\nconsistent 3",
        7,
        CertCause::WrongValue { kept: 2, given: 3 },
    ),
    (
        b"mastncert 1\nconsistent 2\nto 1 10 0",
        8,
        CertCause::UnknownWord,
    ),
    (b"mastncert 1\nconsistent 2\nend", 8, CertCause::UnknownWord),
    (b"mastncert 1\nconsistent 2\nfrom", 8, CertCause::FieldCount),
    (
        b"mastncert 1\nconsistent 2\nfrom -1",
        8,
        CertCause::NumberBad,
    ),
    (
        b"mastncert 1\nconsistent 2\nfrom 1",
        8,
        CertCause::WrongValue { kept: 0, given: 1 },
    ),
    (
        b"mastncert 1\nconsistent 2\nfrom 0\nto 1 10",
        9,
        CertCause::FieldCount,
    ),
    (
        b"mastncert 1\nconsistent 2\nfrom 0\nto 0 x 0",
        9,
        CertCause::NumberBad,
    ),
    (
        b"mastncert 1\nconsistent 2\nfrom 0\nto -1 10 0",
        9,
        CertCause::NumberBad,
    ),
    (
        b"mastncert 1\nconsistent 2\nfrom 0\nto 1 10 -1",
        9,
        CertCause::NumberBad,
    ),
    (
        b"mastncert 1\nconsistent 2\nfrom 0\nto 0 1 7",
        9,
        CertCause::AgainTo(0),
    ),
    (
        b"mastncert 1\nconsistent 2\nfrom 0\nto 2 10 0",
        9,
        CertCause::AgainTo(2),
    ),
    (
        b"mastncert 1\nconsistent 2\nfrom 0\nto 4294967296 10 0",
        9,
        CertCause::AgainTo(4_294_967_296),
    ),
    (
        b"mastncert 1\nconsistent 2\nfrom 0\nto 1 10 0\nto 1 10 0",
        10,
        CertCause::AgainTo(1),
    ),
    (
        b"mastncert 1\nconsistent 2\nfrom 0\nto 1 9 1",
        9,
        CertCause::BadArc(1),
    ),
    (
        b"mastncert 1\nconsistent 2\nfrom 0\nto 1 10 2",
        9,
        CertCause::BadArc(2),
    ),
    (
        b"mastncert 1\nconsistent 2\nfrom 0\nto 1 10 4294967296",
        9,
        CertCause::BadArc(4_294_967_296),
    ),
    (
        b"mastncert 1\nconsistent 2\nfrom 0\nto 1 9 0",
        9,
        CertCause::WrongValue { kept: 10, given: 9 },
    ),
    (
        b"mastncert 1\nconsistent 2\nfrom 0\nholds",
        9,
        CertCause::MissingTo(1),
    ),
    (
        b"mastncert 1\nconsistent 2\nfrom 0\nholds 1",
        9,
        CertCause::FieldCount,
    ),
    (
        b"mastncert 1\nconsistent 2\nfrom 0\nto 1 10 0\nholds\nfrom 0",
        11,
        CertCause::WrongValue { kept: 1, given: 0 },
    ),
    (
        b"mastncert 1\nconsistent 2\nfrom 0\nto 1 10 0\nholds\nend",
        11,
        CertCause::UnknownWord,
    ),
    (
        b"mastncert 1\nconsistent 2\nfrom 0\nto 1 10 0\nholds\nfrom 1\nto 0 0 1\nholds\n",
        14,
        CertCause::NoEnd,
    ),
    (
        b"mastncert 1\nconsistent 2\nfrom 0\nto 1 10 0\nholds\nfrom 1\nto 0 0 1\nholds\nend 1",
        14,
        CertCause::FieldCount,
    ),
    (
        b"mastncert 1\nconsistent 2\nfrom 0\nto 1 10 0\nholds\nfrom 1\nto 0 0 1\nholds\nend\n# x\n\xff",
        16,
        CertCause::AfterEnd,
    ),
    (
        b"mastncert 1\ninconsistent\ncycle 0 1",
        8,
        CertCause::BadCycle,
    ),
];

#[test]
fn refuses_the_first_false_line(rt: HostRuntime) {
    for (certificate, line, cause) in REFUSED {
        assert_eq!(rt;
            answer(&rt, rt.alloc(), ALONE, certificate),
            Verdict::No { line, cause },
            "at line {line}"
        );
    }
}

#[test]
fn refuses_arcs_and_cycles(rt: HostRuntime) {
    for (network, certificate, line, cause) in [
        (
            TIGHT,
            b"mastncert 1\nconsistent 2\nfrom 0\nto 1 10 0\nholds".as_slice(),
            11,
            CertCause::ArcFails(2),
        ),
        (
            RIGID,
            b"mastncert 1\nconsistent 3\nfrom 0\nto 2 10 4".as_slice(),
            11,
            CertCause::BadArc(4),
        ),
        (
            REVERSED,
            b"mastncert 1\ninconsistent\nend".as_slice(),
            10,
            CertCause::UnknownWord,
        ),
        (
            REVERSED,
            b"mastncert 1\ninconsistent\ncycle".as_slice(),
            10,
            CertCause::FieldCount,
        ),
        (
            REVERSED,
            b"mastncert 1\ninconsistent\ncycle x".as_slice(),
            10,
            CertCause::FieldCount,
        ),
        (
            REVERSED,
            b"mastncert 1\ninconsistent\ncycle 4 9 -5".as_slice(),
            10,
            CertCause::NumberBad,
        ),
        (
            REVERSED,
            b"mastncert 1\ninconsistent\ncycle 5 4".as_slice(),
            10,
            CertCause::BadCycle,
        ),
        (
            REVERSED,
            b"mastncert 1\ninconsistent\ncycle 4 5 4 5".as_slice(),
            10,
            CertCause::BadCycle,
        ),
        (
            REVERSED,
            b"mastncert 1\ninconsistent\ncycle 0 4294967296".as_slice(),
            10,
            CertCause::BadCycle,
        ),
        (
            RIGID,
            b"mastncert 1\ninconsistent\ncycle 4 5".as_slice(),
            10,
            CertCause::BadCycle,
        ),
        (
            REVERSED,
            b"mastncert 1\ninconsistent\ncycle 4 5".as_slice(),
            11,
            CertCause::NoEnd,
        ),
    ] {
        assert_eq!(rt;
            answer(&rt, rt.alloc(), network, certificate),
            Verdict::No { line, cause },
            "at line {line}"
        );
    }
}

#[test]
fn tells_whether_a_network_is_consistent(rt: HostRuntime) {
    for (certificate, shown) in [
        (
            b"mastncert 1\nconsistent 2\nfrom 0\nto 1 10 0\nholds\nfrom 1\nto 0 0 1\nholds\nend".as_slice(),
            true,
        ),
        (b"mastncert 1\nconsistent 2\nend".as_slice(), false),
    ] {
        let Ok(read) = net_text::read_net(rt.alloc(), ALONE) else {
            assert!(rt; false, "the network is read");
            continue;
        };
        assert!(rt; read.net.points() <= 256);
        assert!(rt; certificate.len() < 1000);
        assert!(rt; is_shown(rt.alloc(), &read.net, certificate) == Ok(shown));
    }
}

#[test]
fn writes_error_lines(rt: HostRuntime) {
    for (cause, text) in [
        (CertCause::NoEnd, b"error 11 NoEnd\n".as_slice()),
        (
            CertCause::WrongValue {
                kept: 10,
                given: -9,
            },
            b"error 11 WrongValue 10 -9\n".as_slice(),
        ),
        (
            CertCause::AgainTo(4_294_967_296),
            b"error 11 AgainTo 4294967296\n".as_slice(),
        ),
        (CertCause::BadArc(7), b"error 11 BadArc 7\n".as_slice()),
        (
            CertCause::MissingTo(1),
            b"error 11 MissingTo 1\n".as_slice(),
        ),
        (CertCause::ArcFails(2), b"error 11 ArcFails 2\n".as_slice()),
    ] {
        let mut out = Vec::new(rt.alloc());
        assert!(rt; add_error(&mut out, 11, cause).is_ok());
        assert_eq!(rt; out.as_slice(), text);
    }
}
