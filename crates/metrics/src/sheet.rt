//! All figures, each with its name and what it means, as they are written down.

use crate::figures::{Figures, LatencyFigures, OpeningFigures, RequestFigures, WorkFigures};
use std::alloc::AllocError;

/// How a figure changes.
#[derive(Clone, Copy, PartialEq, Eq)]
pub enum Kind {
    /// It only grows while a server runs.
    Counter,
    Gauge,
}

/// What a figure counts.
#[derive(Clone, Copy, PartialEq, Eq)]
pub enum Unit {
    One,
    Micros,
}

/// A figure's name without its unit, what it means, and how it changes.
#[derive(Clone, Copy)]
pub struct Family<'a> {
    pub name: &'a str,
    pub help: &'a str,
    pub kind: Kind,
    pub unit: Unit,
}

/// Takes figures, in one format.
pub trait Sheet {
    /// Writes a figure.
    fn figure(&mut self, family: Family<'_>, value: u64) -> Result<(), AllocError>;

    /// Writes figures of one family, which differ in a label.
    fn labelled(
        &mut self,
        family: Family<'_>,
        label: &str,
        values: &[(&str, u64)],
    ) -> Result<(), AllocError>;

    /// Writes latencies by command.
    fn latencies(
        &mut self,
        name: &str,
        help: &str,
        values: &[(&str, &LatencyFigures)],
    ) -> Result<(), AllocError>;
}

fn counter<'a>(name: &'a str, help: &'a str) -> Family<'a> {
    Family {
        name,
        help,
        kind: Kind::Counter,
        unit: Unit::One,
    }
}

fn time<'a>(name: &'a str, help: &'a str) -> Family<'a> {
    Family {
        name,
        help,
        kind: Kind::Counter,
        unit: Unit::Micros,
    }
}

pub(crate) fn gauge<'a>(name: &'a str, help: &'a str) -> Family<'a> {
    Family {
        name,
        help,
        kind: Kind::Gauge,
        unit: Unit::One,
    }
}

fn age<'a>(name: &'a str, help: &'a str) -> Family<'a> {
    Family {
        name,
        help,
        kind: Kind::Gauge,
        unit: Unit::Micros,
    }
}

/// Writes all figures down.
pub fn write_figures<S: Sheet>(sheet: &mut S, figures: &Figures) -> Result<(), AllocError> {
    write_opening(sheet, figures.uptime_micros, &figures.opening)?;
    sheet.figure(
        gauge("clients", "Clients that are connected."),
        figures.clients,
    )?;
    sheet.figure(
        counter("connections", "Clients that have come."),
        figures.clients_total,
    )?;
    sheet.figure(
        gauge(
            "requests_in_progress",
            "Requests that were read and have no answer yet.",
        ),
        figures.in_progress,
    )?;
    write_requests(sheet, &figures.requests)?;
    write_pending(sheet, figures)?;
    write_groups(sheet, &figures.groups, &figures.syncs)?;
    write_journal(sheet, figures)?;
    write_checkpoints(sheet, figures)?;
    write_waits(sheet, figures)?;
    write_space(sheet, figures)?;
    sheet.figure(
        counter(
            "refused_allocations",
            "Times that storing or copying was refused memory and had to wait.",
        ),
        figures.refused_allocations,
    )?;
    write_numbers(sheet, figures)
}

/// Writes down how far the opening of the image is.
pub(crate) fn write_opening<S: Sheet>(
    sheet: &mut S,
    uptime_micros: u64,
    opening: &OpeningFigures,
) -> Result<(), AllocError> {
    sheet.figure(
        age("uptime", "Time since the server started."),
        uptime_micros,
    )?;
    sheet.figure(
        gauge(
            "opening_scanned_bytes",
            "Bytes of the journal that the opening of the image has scanned.",
        ),
        opening.scanned_bytes,
    )?;
    sheet.figure(
        gauge(
            "opening_unscanned_bytes",
            "Bytes of the journal that it has left to scan, at most.",
        ),
        opening.unscanned_bytes,
    )?;
    sheet.figure(
        gauge(
            "opening_copied_bytes",
            "Bytes that it has copied from the journal into the image.",
        ),
        opening.copied_bytes,
    )?;
    sheet.figure(
        gauge(
            "opening_uncopied_bytes",
            "Bytes that it has left to copy, at most.",
        ),
        opening.uncopied_bytes,
    )
}

fn write_requests<S: Sheet>(sheet: &mut S, requests: &RequestFigures) -> Result<(), AllocError> {
    sheet.labelled(
        counter("requests", "Requests, by command."),
        "command",
        &[
            ("read", requests.read.requests),
            ("write", requests.write.requests),
            ("flush", requests.flush.requests),
            ("trim", requests.trim.requests),
            ("write_zeroes", requests.write_zeroes.requests),
            ("block_status", requests.block_status.requests),
            ("other", requests.other.requests),
        ],
    )?;
    sheet.labelled(
        counter("request_bytes", "Bytes that requests named, by command."),
        "command",
        &[
            ("read", requests.read.bytes),
            ("write", requests.write.bytes),
            ("trim", requests.trim.bytes),
            ("write_zeroes", requests.write_zeroes.bytes),
            ("block_status", requests.block_status.bytes),
        ],
    )?;
    sheet.labelled(
        counter("errors", "Error replies, by error."),
        "error",
        &[
            ("EIO", requests.errors.eio),
            ("ENOMEM", requests.errors.enomem),
            ("EINVAL", requests.errors.einval),
            ("ENOSPC", requests.errors.enospc),
        ],
    )?;
    sheet.latencies(
        "request_duration",
        "Time from a request that was read to its answer, by command.",
        &[
            ("read", &requests.read_latency),
            ("write", &requests.write_latency),
            ("flush", &requests.flush_latency),
        ],
    )
}

fn write_pending<S: Sheet>(sheet: &mut S, figures: &Figures) -> Result<(), AllocError> {
    let pending = &figures.pending;
    sheet.figure(
        gauge(
            "pending_commands",
            "Write commands that were accepted and are not stored: a power cut would take them.",
        ),
        pending.commands,
    )?;
    sheet.figure(
        gauge(
            "pending_bytes",
            "Bytes of those commands, as the journal stores them.",
        ),
        pending.bytes,
    )?;
    sheet.figure(
        age(
            "pending_age",
            "Age of the oldest of those commands, at most.",
        ),
        pending.oldest_micros,
    )
}

fn write_groups<S: Sheet>(
    sheet: &mut S,
    groups: &WorkFigures,
    syncs: &WorkFigures,
) -> Result<(), AllocError> {
    sheet.figure(
        counter("groups", "Groups of commands that were stored together."),
        groups.count,
    )?;
    sheet.figure(
        counter("group_commands", "Commands in those groups."),
        groups.items,
    )?;
    sheet.figure(
        counter("group_bytes", "Bytes of those groups."),
        groups.bytes,
    )?;
    sheet.figure(
        time(
            "group_append",
            "Time that storing those groups took, with syncs.",
        ),
        groups.micros,
    )?;
    sheet.figure(counter("syncs", "Syncs of the device."), syncs.count)?;
    sheet.figure(time("sync", "Time that those syncs took."), syncs.micros)
}

fn write_journal<S: Sheet>(sheet: &mut S, figures: &Figures) -> Result<(), AllocError> {
    let journal = &figures.journal;
    sheet.figure(
        gauge("journal_areas", "Areas of the journal."),
        journal.areas,
    )?;
    sheet.figure(
        gauge(
            "journal_areas_in_use",
            "Areas that hold groups not yet copied into the image.",
        ),
        journal.areas_in_use,
    )?;
    sheet.figure(
        gauge("journal_used_bytes", "Bytes of groups in those areas."),
        journal.used_bytes,
    )?;
    sheet.figure(
        gauge(
            "journal_free_bytes",
            "Bytes that groups can take before an area has to be copied.",
        ),
        journal.free_bytes,
    )?;
    let frames = &figures.frames;
    sheet.labelled(
        gauge("frames", "Frames of 4096 bytes for blocks, by state."),
        "state",
        &[
            ("dirty", frames.dirty),
            ("clean", frames.clean),
            ("free", frames.free),
        ],
    )
}

fn write_checkpoints<S: Sheet>(sheet: &mut S, figures: &Figures) -> Result<(), AllocError> {
    let checkpoints = &figures.checkpoints;
    sheet.figure(
        counter(
            "checkpoints",
            "Journal areas that were copied into the image.",
        ),
        checkpoints.count,
    )?;
    sheet.figure(
        counter("checkpoint_blocks", "Blocks that were copied."),
        checkpoints.items,
    )?;
    sheet.figure(
        time("checkpoint", "Time that those copies took."),
        checkpoints.micros,
    )?;
    let delays = &figures.delays;
    sheet.figure(
        counter(
            "delayed_writes",
            "Writes that were slowed down because frames fill faster than they are copied.",
        ),
        delays.count,
    )?;
    sheet.figure(
        time("write_delay", "Time by which they were slowed down."),
        delays.micros,
    )
}

fn write_waits<S: Sheet>(sheet: &mut S, figures: &Figures) -> Result<(), AllocError> {
    let waits = &figures.waits;
    sheet.labelled(
        counter(
            "waits",
            "Waits of writes before they were accepted, by what they waited for; throttle: slowed down.",
        ),
        "reason",
        &[
            ("journal", waits.journal.count),
            ("frames", waits.frames.count),
            ("loss_bytes", waits.loss_bytes.count),
            ("loss_seconds", waits.loss_seconds.count),
            ("throttle", waits.throttle.count),
        ],
    )?;
    sheet.labelled(
        time("wait", "Time that those waits took."),
        "reason",
        &[
            ("journal", waits.journal.micros),
            ("frames", waits.frames.micros),
            ("loss_bytes", waits.loss_bytes.micros),
            ("loss_seconds", waits.loss_seconds.micros),
            ("throttle", waits.throttle.micros),
        ],
    )
}

/// Writes down whether a write of the device waits for space.
pub(crate) fn write_disk_full<S: Sheet>(
    sheet: &mut S,
    waits_for_space: bool,
) -> Result<(), AllocError> {
    sheet.figure(
        gauge(
            "disk_full",
            "1 while a write of the device waits for space on its disk.",
        ),
        u64::from(waits_for_space),
    )
}

fn write_space<S: Sheet>(sheet: &mut S, figures: &Figures) -> Result<(), AllocError> {
    write_disk_full(sheet, figures.waits_for_space)?;
    sheet.figure(
        counter(
            "disk_full_waits",
            "Writes of the device that have waited for space on its disk.",
        ),
        figures.space_waits.count,
    )?;
    sheet.figure(
        time("disk_full_wait", "Time that those waits took."),
        figures.space_waits.micros,
    )
}

fn write_numbers<S: Sheet>(sheet: &mut S, figures: &Figures) -> Result<(), AllocError> {
    let numbers = &figures.numbers;
    sheet.figure(
        gauge(
            "base_number",
            "Number of the last command that the image holds without the journal.",
        ),
        numbers.base,
    )?;
    sheet.figure(
        gauge(
            "accepted_number",
            "Number of the last command that was accepted.",
        ),
        numbers.accepted,
    )?;
    sheet.figure(
        gauge(
            "durable_number",
            "Number of the last command that is stored with all before it.",
        ),
        numbers.durable,
    )
}
