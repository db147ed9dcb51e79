//! Schedules: the times of points and of acts.
ghost use Rattle.std.specs.Prelude.{◌≡◌, ◌<◌, ◌++◌, OnOk, OnErr, length};
ghost use Rattle.std.specs.List.{flat_map, range_with_len};
ghost use Rattle.net_text.specs.Plain.{HasFront};
ghost use Rattle.stn_model.specs.Net.{point_count};
ghost use Rattle.stn_model.specs.Schedules.{time_at};
ghost use Rattle.schedule_report.specs.Lines.{time_line, act_line};
ghost use Rattle.schedule_report.specs.Parts.{times_part};

use crate::mark::whole_or_none;
use itoa::Buffer;
use net_text::write::add_line;
use stn_model::{Network, OutOfMemory, PointId, Schedule};

/// Appends the time part of a schedule: `time NAME T` for each point but the reference point, by number, and then `act NAME START END` for
/// each act, by number, with the times of its two points. Times are in the network's unit.
///
/// # Errors
/// `OutOfMemory` where the vector cannot grow. Then its bytes are those from before.
pub fn times_part(net: &Network, schedule: &Schedule, out: &mut Vec<u8>) -> Result<(), OutOfMemory>
    requires { length schedule.now ≡ point_count net.now }
    ensures ok { OnOk result (out.new.items ≡ out.old.items ++ times_part net.now schedule.now) }
    ensures err { OnErr result (out.new.items ≡ out.old.items) }
{
    let mark = out.len();
    let added = add_times(net, schedule, out);
    whole_or_none(added, mark, out)
}

/// Appends a time part. After an `Err` some of it may stand there.
pub fn add_times(net: &Network, schedule: &Schedule, out: &mut Vec<u8>) -> Result<(), OutOfMemory>
    requires { length schedule.now ≡ point_count net.now }
    ensures ok { OnOk result (out.new.items ≡ out.old.items ++ times_part net.now schedule.now) }
    ensures kept { HasFront out.old.items out.new.items }
{
    add_points(net, schedule, out)?;
    add_acts(net, schedule, out)
}

/// Appends the lines of the points.
fn add_points(net: &Network, schedule: &Schedule, out: &mut Vec<u8>) -> Result<(), OutOfMemory>
    requires { length schedule.now ≡ point_count net.now }
    ensures ok { OnOk result (out.new.items ≡ out.old.items
        ++ flat_map (λ p. time_line net.now p (time_at schedule.now p)) (range_with_len 1 (length net.now.places))) }
    ensures kept { HasFront out.old.items out.new.items }
{
    for point in 1..net.points() {
        add_point(net, schedule, point, out)?;
    }
    Ok(())
}

/// Appends the line of a point.
fn add_point(
    net: &Network,
    schedule: &Schedule,
    point: u32,
    out: &mut Vec<u8>,
) -> Result<(), OutOfMemory>
    requires point { point < point_count net.now }
    requires one_each { length schedule.now ≡ point_count net.now }
    ensures ok { OnOk result (out.new.items ≡ out.old.items ++ time_line net.now point (time_at schedule.now point)) }
    ensures kept { HasFront out.old.items out.new.items }
{
    let mut digits = Buffer::new();
    let time = digits.format(time_of(schedule, point)).as_bytes();
    add_line(out, b"time", &[net.point_name(PointId(point)), time])
}

/// The time of a point.
fn time_of(schedule: &Schedule, point: u32) -> i128
    requires { point < length schedule.now }
    ensures { result ≡ time_at schedule.now point }
{
    schedule.times()[point as usize]
}

/// Appends the lines of the acts.
fn add_acts(net: &Network, schedule: &Schedule, out: &mut Vec<u8>) -> Result<(), OutOfMemory>
    requires { length schedule.now ≡ point_count net.now }
    ensures ok { OnOk result (out.new.items ≡ out.old.items
        ++ flat_map (act_line net.now schedule.now) (range_with_len 0 (length net.now.acts))) }
    ensures kept { HasFront out.old.items out.new.items }
{
    for act in 0..net.acts() {
        add_act(net, schedule, act, out)?;
    }
    Ok(())
}

/// Appends the line of an act.
fn add_act(
    net: &Network,
    schedule: &Schedule,
    number: u32,
    out: &mut Vec<u8>,
) -> Result<(), OutOfMemory>
    requires act { number < length net.now.acts }
    requires one_each { length schedule.now ≡ point_count net.now }
    ensures ok { OnOk result (out.new.items ≡ out.old.items ++ act_line net.now schedule.now number) }
    ensures kept { HasFront out.old.items out.new.items }
{
    let act = net.act(number);
    let mut start_digits = Buffer::new();
    let start = start_digits
        .format(time_of(schedule, act.start.0))
        .as_bytes();
    let mut end_digits = Buffer::new();
    let end = end_digits.format(time_of(schedule, act.end.0)).as_bytes();
    add_line(out, b"act", &[net.act_name(number), start, end])
}
