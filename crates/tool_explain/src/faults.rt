//! Where the fault of a certificate stands: in the profile, and in the certificate's text.

use crate::counts::count_notes;
use crate::places::{constraint_at, place_text};
use cert_rules::CheckFault;
use cert_types::{Certificate, Direction, Step};
use sem_bits::lines::{LinesError, lines};
use sem_profile::{Method, Profile};
use std::alloc::{AllocError, Global};
use text_source::Span;
use tool_names::names::{format_at, format_name, method_name, method_place};

/// What is at fault, by the names of a certificate's text: a method, with a node of its tree, or with a format, a plan and a step.
#[derive(Clone, Copy)]
struct Site {
    method: usize,
    format: Option<usize>,
    direction: Option<Direction>,
    // a node or a step
    place: Option<usize>,
}

/// The place of a fault in the profile, and its line in the text of the certificate, where it has one. Of the candidates their number.
pub fn fault_notes(
    alloc: Global,
    octets: &[u8],
    profile: &Profile,
    certificate: &Certificate,
    text: &str,
    fault: CheckFault,
) -> Result<String, AllocError> {
    if let CheckFault::TooMany = fault {
        return count_notes(alloc, octets, profile, certificate);
    }
    let site = site_of(profile, fault);
    let methods = profile.methods();
    let place = profile_place(methods, certificate, site);
    let mut notes = place_text(alloc, octets, place)?;
    notes.push_str("in ")?;
    notes.push_str(method_name(methods, site.method))?;
    if let Some(format) = site.format {
        notes.push_str(".")?;
        notes.push_str(format_name(methods, site.method, format))?;
    }
    notes.push_str("\n")?;
    if let Some(line) = text_line(alloc, methods, text, site)? {
        let words = format!(in alloc; "certificate:{line}: here\n")?;
        notes.push_str(words.as_str())?;
    }
    Ok(notes)
}

fn site_of(profile: &Profile, fault: CheckFault) -> Site {
    match fault {
        CheckFault::NoMethod { method } => of_method(method, None),
        CheckFault::NoFormat { method, format } => of_format(method, format, None, None),
        CheckFault::NotEnabled {
            method,
            format,
            direction,
            step,
        } => of_format(method, format, Some(direction), Some(step)),
        CheckFault::NeverLearnt {
            method,
            format,
            direction,
            field: _,
            side: _,
        } => of_format(method, format, Some(direction), None),
        CheckFault::WrongLeaf {
            method,
            node,
            format,
        } => of_node(method, node, format),
        CheckFault::ShortFormat {
            method,
            node,
            format,
        } => of_node(method, node, format),
        CheckFault::OutOfRange { method, node } => of_method(method, Some(node)),
        CheckFault::BeyondWord { method, node } => of_method(method, Some(node)),
        CheckFault::TooMany => of_method(profile.top(), None),
        CheckFault::TooLong => of_method(profile.top(), None),
    }
}

fn of_method(method: usize, place: Option<usize>) -> Site {
    Site {
        method,
        format: None,
        direction: None,
        place,
    }
}

fn of_node(method: usize, node: usize, format: usize) -> Site {
    Site {
        method,
        format: Some(format),
        direction: None,
        place: Some(node),
    }
}

fn of_format(
    method: usize,
    format: usize,
    direction: Option<Direction>,
    place: Option<usize>,
) -> Site {
    Site {
        method,
        format: Some(format),
        direction,
        place,
    }
}

/// The constraint of a step, else the method's name.
fn profile_place(methods: &[Method], certificate: &Certificate, site: Site) -> Span {
    match step_place(methods, certificate, site) {
        Some(place) => place,
        None => method_place(methods, site.method),
    }
}

fn step_place(methods: &[Method], certificate: &Certificate, site: Site) -> Option<Span> {
    let format = format_at(methods, site.method, site.format?)?;
    match step_at(certificate, site)? {
        Step::ConstraintLength(_, _, number) => constraint_at(format, number),
        Step::Solve(_, number) => constraint_at(format, number),
        _ => None,
    }
}

fn step_at(certificate: &Certificate, site: Site) -> Option<Step> {
    let Some(entry) = certificate.methods().get(site.method)? else {
        return None;
    };
    let Some(plans) = &entry.formats.get(site.format?)?.plans else {
        return None;
    };
    let step = match site.direction? {
        Direction::Read => plans.read.get(site.place?),
        Direction::Write => plans.write.get(site.place?),
    };
    Some(*step?)
}

// ---- in the text of the certificate

/// Which part of a method's entry a line stands in.
#[derive(Clone, Copy, PartialEq, Eq)]
enum Part {
    Tree,
    Format,
    Read,
    Write,
}

/// The line of the certificate's text that is at fault: the node or the step, the heading of the plan, of the format or of the method, or the last line. None
/// where there is no text.
fn text_line(
    alloc: Global,
    methods: &[Method],
    text: &str,
    site: Site,
) -> Result<Option<usize>, AllocError> {
    if text.is_empty() {
        return Ok(None);
    }
    let lines = match lines(alloc, text.as_bytes()) {
        Ok(lines) => lines,
        Err(LinesError::NotText { line: _ }) => return Ok(None),
        Err(LinesError::OutOfMemory) => return Err(AllocError),
    };
    let mut is_here = false;
    let mut in_format = false;
    let mut part = Part::Tree;
    let mut count = 0;
    let mut last = None;
    for line in lines.as_slice() {
        let words = line.text;
        if let Some(name) = words.strip_prefix("method ") {
            is_here = name == method_name(methods, site.method);
            in_format = false;
            part = Part::Tree;
            count = 0;
            if is_here {
                last = Some(line.number);
            }
        } else if let Some(name) = words.strip_prefix("format ") {
            in_format = match site.format {
                Some(format) => name == format_name(methods, site.method, format),
                None => false,
            };
            part = Part::Format;
            if is_here && in_format && site.is_of_format() {
                last = Some(line.number);
            }
        } else if words == "read" || words == "write" {
            part = if words == "read" {
                Part::Read
            } else {
                Part::Write
            };
            count = 0;
            if is_here && in_format && site.is_of(part) {
                last = Some(line.number);
            }
        } else {
            if is_here && site.is_at(part, in_format, count) {
                return Ok(Some(line.number));
            }
            count = count.saturating_add(1);
        }
    }
    Ok(last)
}

impl Site {
    /// Whether it is a format or a plan, and no node of a tree.
    fn is_of_format(self) -> bool {
        self.direction.is_some() || self.place.is_none()
    }

    /// Whether it is a plan of that direction, or a step of it.
    fn is_of(self, part: Part) -> bool {
        match self.direction {
            Some(Direction::Read) => part == Part::Read,
            Some(Direction::Write) => part == Part::Write,
            None => false,
        }
    }

    /// Whether it is the node or the step of that number in a part.
    fn is_at(self, part: Part, in_format: bool, count: usize) -> bool {
        let Some(place) = self.place else {
            return false;
        };
        if place != count {
            return false;
        }
        match self.direction {
            Some(_) => in_format && self.is_of(part),
            None => part == Part::Tree,
        }
    }
}
