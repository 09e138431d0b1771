//! Which payload types there are.

use crate::arguments::Arguments;
use crate::row::Row;
use crate::sections::{
    MediaHead, Ports, SectionFault, SessionText, any_begins, as_browsers_write, cut, head_of,
    is_refused, ports_of, repaired_pair,
};
use crate::session_sets::SessionSets;
use anyhow::bail;
use sdp_formats::{RtpParams, SdpError, SdpOffer, faulty_line};
use std::alloc::{AllocError, Global};
use std::collections::BTreeMap;
use std::{fs, io};

/// All payload types, which streams have which repairs, and what says that media is encrypted.
#[derive(Drop)]
pub(crate) struct Rows {
    /// What the arguments say, which counts more than what a text says.
    given: Vec<Row>,
    rows: Vec<Row>,
    /// The SSRC of the stream that an SSRC repairs.
    repaired: BTreeMap<u32, u32>,
    /// The parameter sets that the texts say.
    pub(crate) sets: SessionSets,
    /// Whether a text has a fingerprint or a profile of encrypted media.
    pub(crate) is_secure: bool,
}

/// The last row of a type on a port.
fn on_port(rows: &[Row], pt: u8, port: u16) -> Option<Row> {
    for row in rows.iter().rev() {
        if let Some(ports) = row.ports {
            if row.pt == pt && ports.has(port) {
                return Some(*row);
            }
        }
    }
    None
}

/// The last row of a type on any port.
fn anywhere(rows: &[Row], pt: u8) -> Option<Row> {
    for row in rows.iter().rev() {
        if row.pt == pt && row.ports.is_none() {
            return Some(*row);
        }
    }
    None
}

/// The row of a type that is meant on other ports, if all that are meant there read a packet alike.
fn elsewhere(rows: &[Row], pt: u8) -> Option<Row> {
    let mut found: Option<Row> = None;
    for row in rows {
        if row.pt != pt {
            continue;
        }
        let mut like = row.on_any_port();
        if let Some(other) = found {
            if !row.is_like(&other) {
                return None;
            }
            if row.sets != other.sets {
                like.sets = None;
            }
        }
        found = Some(like);
    }
    found
}

/// The row of a type for a packet to this port, if it is known.
fn row_among(rows: &[Row], pt: u8, port: Option<u16>) -> Option<Row> {
    if let Some(port) = port {
        if let Some(row) = on_port(rows, pt, port) {
            return Some(row);
        }
    }
    if let Some(row) = anywhere(rows, pt) {
        return Some(row);
    }
    if is_meant(rows, port) {
        return None;
    }
    elsewhere(rows, pt)
}

/// The row of a type for a packet to this port among those that the arguments say: one for a port counts on that port,
/// and, of captures that say no ports, if all of the type agree.
fn given_row(rows: &[Row], pt: u8, port: Option<u16>) -> Option<Row> {
    match port {
        Some(port) => on_port(rows, pt, port).or(anywhere(rows, pt)),
        None => anywhere(rows, pt).or(elsewhere(rows, pt)),
    }
}

/// Whether a row is meant on this port.
fn is_meant(rows: &[Row], port: Option<u16>) -> bool {
    let Some(port) = port else {
        return false;
    };
    rows.iter().any(|row| match row.ports {
        Some(ports) => ports.has(port),
        None => false,
    })
}

impl Rows {
    /// The row of a payload type for a packet to this port, if it is known: the last one that the arguments say, then
    /// the last one that a text says for the port, for any port, or for other ports alone, if these agree; and last
    /// that of a static type.
    pub(crate) fn row(&self, pt: u8, port: Option<u16>) -> Option<Row> {
        if let Some(row) = given_row(&self.given, pt, port) {
            return Some(row);
        }
        if let Some(row) = row_among(&self.rows, pt, port) {
            return Some(row);
        }
        Row::of_static(pt)
    }

    /// The stream that a text says these are the repairs of.
    pub(crate) fn repaired_by(&self, repairs: u32) -> Option<u32> {
        self.repaired.get(&repairs).copied()
    }

    /// Takes the rows of a section, written as browsers write it.
    fn take_rows(
        &mut self,
        alloc: Global,
        text: &str,
        ports: Option<Ports>,
    ) -> Result<bool, SdpError> {
        let sdp = SdpOffer::from_sdp_string(alloc, text)?;
        let Some(section) = sdp.media_lines.first() else {
            return Ok(false);
        };
        let mut any = false;
        for params in &section.rtp_params(alloc)? {
            let row = Row::of_params(params, ports);
            any = true;
            self.rows.push(row)?;
            if let Some(red) = params.red() {
                self.rows.push(row.as_redundant(red.get()))?;
            }
            if let Some(resend) = params.resend() {
                self.rows.push(Row::repairing(resend.get(), row.pt, ports))?;
            }
        }
        Ok(any)
    }

    /// Takes which streams have which repairs.
    fn take_pairs(&mut self, section: &[&str]) -> Result<(), AllocError> {
        for line in section {
            if let Some((stream, repairs)) = repaired_pair(line) {
                self.repaired.insert(repairs, stream)?;
            }
        }
        Ok(())
    }

    /// Takes a section; or why it can't be read.
    fn take_section(
        &mut self,
        alloc: Global,
        session: &[&str],
        section: &[&str],
    ) -> anyhow::Result<Option<SectionFault>> {
        let Some(head) = section.first().and_then(|line| head_of(*line)) else {
            return Ok(Some(SectionFault::LineUnread));
        };
        if head.kind == "application" || is_refused(&head, session, section) {
            return Ok(None);
        }
        if !head.is_media() {
            return Ok(Some(SectionFault::NoMedia));
        }
        if !head.is_rtp() {
            return Ok(Some(SectionFault::NotRtp));
        }
        self.take_media(alloc, &head, session, section)
    }

    /// Takes a section of audio or video over RTP; or why it can't be read.
    fn take_media(
        &mut self,
        alloc: Global,
        head: &MediaHead<'_>,
        session: &[&str],
        section: &[&str],
    ) -> anyhow::Result<Option<SectionFault>> {
        if head.is_secure() || any_begins(section, "a=fingerprint:") {
            self.is_secure = true;
        }
        self.take_pairs(section)?;
        let text = as_browsers_write(alloc, head, section)?;
        let ports = ports_of(head, session, section);
        match self.take_rows(alloc, &text, ports) {
            Ok(true) => Ok(None),
            Ok(false) => Ok(Some(SectionFault::NoneKnown)),
            Err(SdpError::Memory) => bail!("out of memory"),
            Err(_) => Ok(Some(fault_of(alloc, &text)?)),
        }
    }

    /// Takes the sections of a text, and tells those that can't be read.
    fn take_sections(
        &mut self,
        rt: &HostRuntime,
        name: &str,
        text: &SessionText<'_>,
    ) -> anyhow::Result<()> {
        let Some((session, sections)) = text.parts.split_first() else {
            return Ok(());
        };
        let session = session.lines.as_slice();
        if any_begins(session, "a=fingerprint:") {
            self.is_secure = true;
        }
        for section in sections {
            let lines = section.lines.as_slice();
            let from = self.rows.len();
            let why = self.take_section(rt.alloc(), session, lines)?;
            self.sets.take(rt, name, section, &mut self.rows, from)?;
            if let (Some(why), Some(line)) = (why, lines.first()) {
                let number = section.number;
                eprintln!(*rt;
                    "rtprecord: {name}: line {number}: a section is passed over, as {why}: {line}"
                )?;
            }
        }
        Ok(())
    }

    /// Takes the rows of a session text.
    fn take_text(&mut self, rt: &HostRuntime, name: &str) -> anyhow::Result<()> {
        let text = match fs::read_to_string(rt, name) {
            Ok(text) => text,
            Err(fault) => bail!("{name}: {fault}"),
        };
        let Some(text) = cut(rt.alloc(), &text)? else {
            bail!("{name}: no line begins with v=, as a session text does")
        };
        tell_passed_over(rt, name, text.passed_over)?;
        self.take_sections(rt, name, &text)
    }
}

/// What is wrong with a section whose payload types can't be read.
fn fault_of(alloc: Global, text: &str) -> Result<SectionFault, AllocError> {
    match faulty_line(alloc, text)? {
        Some(line) => Ok(SectionFault::Faulty(line.fault)),
        None => Ok(SectionFault::TypesUnread),
    }
}

/// Tells how many lines are before a session text.
fn tell_passed_over(rt: &HostRuntime, name: &str, lines: usize) -> io::Result<()> {
    if lines == 0 {
        return Ok(());
    }
    eprintln!(*rt; "rtprecord: {name}: lines before v=, which are passed over: {lines}")
}

/// The first argument that should say a row and says none.
pub(crate) fn no_row(arguments: &Arguments) -> Option<&String> {
    let is_none = |text: &&String| Row::of(text.as_str()).is_none();
    if let Some(text) = arguments.rows.iter().find(is_none) {
        return Some(text);
    }
    arguments
        .repairs
        .iter()
        .find(|text| Row::of_repairs(text.as_str()).is_none())
}

/// The rows of the texts, in order, and those of the arguments.
pub(crate) fn rows_of(rt: &HostRuntime, arguments: &Arguments) -> anyhow::Result<Rows> {
    let mut rows = Rows {
        given: Vec::new(rt.alloc()),
        rows: Vec::new(rt.alloc()),
        repaired: BTreeMap::new(rt.alloc()),
        sets: SessionSets::new(rt.alloc()),
        is_secure: false,
    };
    for name in &arguments.texts {
        rows.take_text(rt, name.as_str())?;
    }
    for text in &arguments.rows {
        if let Some(row) = Row::of(text.as_str()) {
            rows.given.push(row)?;
        }
    }
    for text in &arguments.repairs {
        if let Some(row) = Row::of_repairs(text.as_str()) {
            rows.given.push(row)?;
        }
    }
    Ok(rows)
}
