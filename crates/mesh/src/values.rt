// Document 002's registers by themselves, each read as a value and written back: a line with the names of its fields from bit 0 up, its
// content and the fields' numbers, and a line with what was written back.
use crate::whole_line::say;
use report::endings::content;
use std::io;
use uncore_controls::advanced1::Advanced1;
use uncore_controls::advanced2::Advanced2;
use uncore_controls::control::Control;
use uncore_registers::header::Header;
use uncore_registers::offsets::Offsets;
use uncore_registers::status::Status;
use words::answers::Refusal;

// Every bit set, reserved ones too.
const ONES: u64 = 0xFFFF_FFFF_FFFF_FFFF;

// The two lines of a register: its name and its fields' names, its content, its fields' numbers, and the content that they make.
fn said(
    rt: &impl Print,
    names: &str,
    register: u64,
    fields: &[u64],
    back: Result<u64, Refusal>,
) -> io::Result<()> {
    say(rt, |page| {
        page.put(names.as_bytes());
        page.labelled_hex(b" 0x", register);
        page.put(b":");
        for field in fields {
            page.labelled(b" ", *field);
        }
        page.put(b"\n");
    })?;
    say(rt, |page| {
        page.put(b"  written back");
        content(page, back);
    })
}

fn header(rt: &impl Print, register: u64) -> io::Result<()> {
    let h = Header::from(register);
    said(
        rt,
        "UFS_HEADER (INTERFACE_VERSION, LOCAL_FABRIC_CLUSTER_ID_MASK, FLAGS, AUTONOMOUS_UFS_DISABLED, FUSION, RATIO_UNIT, RSVD)",
        register,
        &[
            h.version,
            h.mask,
            h.flags,
            h.disabled,
            h.fusion,
            h.unit,
            h.reserved36,
        ],
        u64::try_from(h),
    )
}

// 002 prints OFFSET_0 alone; request 2 has a byte for each of eight clusters.
fn offsets(rt: &impl Print, register: u64) -> io::Result<()> {
    let o = Offsets::from(register);
    said(
        rt,
        "UFS_FABRIC_CLUSTER_OFFSET (OFFSET_0 to OFFSET_7)",
        register,
        &[
            o.offset0, o.offset1, o.offset2, o.offset3, o.offset4, o.offset5, o.offset6, o.offset7,
        ],
        u64::try_from(o),
    )
}

fn status(rt: &impl Print, register: u64) -> io::Result<()> {
    let t = Status::from(register);
    said(
        rt,
        "UFS_STATUS (CURRENT_RATIO, CURRENT_VOLTAGE, AGENT_TYPE_CORE, CACHE, MEMORY, IO, RSVD, THROTTLE_COUNTER)",
        register,
        &[
            t.ratio,
            t.voltage,
            t.core,
            t.cache,
            t.memory,
            t.io,
            t.reserved27,
            t.throttled,
        ],
        u64::try_from(t),
    )
}

fn control(rt: &impl Print, register: u64) -> io::Result<()> {
    let k = Control::from(register);
    said(
        rt,
        "UFS_CONTROL (UFS_THROTTLE_MODE, RSVD1, MAX_RATIO, MIN_RATIO, EFFICIENCY_LATENCY_CTRL_RATIO, RSVD2, EFFICIENCY_LATENCY_CTRL_THRESHOLD, RSVD3)",
        register,
        &[
            k.mode,
            k.reserved2,
            k.maximum,
            k.minimum,
            k.floor,
            k.reserved29,
            k.threshold,
            k.reserved39,
        ],
        u64::try_from(k),
    )
}

fn advanced1(rt: &impl Print, register: u64) -> io::Result<()> {
    let a = Advanced1::from(register);
    said(
        rt,
        "UFS_ADV_CONTROL_1 (SLOPE_1, BASE_1, RSVD)",
        register,
        &[a.slope, a.base, a.reserved16],
        u64::try_from(a),
    )
}

fn advanced2(rt: &impl Print, register: u64) -> io::Result<()> {
    let a = Advanced2::from(register);
    said(
        rt,
        "UFS_ADV_CONTROL_2 (SLOPE_2, BASE_2, UTILIZATION_THRESHOLD, HBM_BW_THRESHOLD, RSVD)",
        register,
        &[a.slope, a.base, a.utilization, a.bandwidth, a.reserved32],
        u64::try_from(a),
    )
}

// The column Default of each table.
pub(crate) fn defaults(rt: &impl Print) -> io::Result<()> {
    header(rt, 0x0101)?;
    offsets(rt, 0x02)?;
    status(rt, 0)?;
    control(rt, 0x7F01)?;
    advanced1(rt, 0)?;
    advanced2(rt, 0xFFFF_0000)
}

// Every bit set; a second cluster behind the first; ratio 24 at 1 V with agents of three types; a minimum of 50 above a maximum of 10, which
// a whole register may say.
pub(crate) fn others(rt: &impl Print) -> io::Result<()> {
    header(rt, ONES)?;
    offsets(rt, 0x0602)?;
    status(rt, 0x0000_0005_0390_0018)?;
    control(rt, ONES)?;
    control(rt, 0x0019_0A01)
}
