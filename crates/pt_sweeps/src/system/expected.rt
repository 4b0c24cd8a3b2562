//! What a run over a case must tell, by the root that it finds; and an audit of a root that has
//! more.
use crate::system::beside;
use crate::system::case::{Case, Met};
use pt_memory::MemDest;
use std::alloc::{AllocError, Global};

/// The status and the log of a run.
#[derive(Drop)]
pub struct Expected {
    pub status: u8,
    pub log: String,
}

// How many objects of a log were carried, how many stood, and what was passed over.
#[derive(Clone, Copy)]
struct Counts {
    done: u32,
    present: u32,
    skip: u32,
}

impl Case {
    /// What a run must tell that finds this root: an object that stands there is present, and each
    /// other is carried.
    pub fn tells(&self, alloc: Global, root: &MemDest) -> Option<Expected> {
        let mut counts = Counts {
            done: 0,
            present: 0,
            skip: 0,
        };
        let mut log = String::new(alloc);
        for met in self.met {
            log.push_str(counts.line_of(alloc, met, root)?).ok()?;
        }
        log.push_str(counts.last_line(alloc).ok()?.as_str()).ok()?;
        let status = counts.status();
        Some(Expected { status, log })
    }

    /// What an audit of both ways must tell of a root with each object whole, and with what is
    /// planted beside them, by bytes or by lengths.
    pub fn tells_audit(&self, alloc: Global, quick: bool) -> Option<Expected> {
        let mut log = String::new(alloc);
        let (mut fitting, mut skip) = (0u32, 0u32);
        for met in self.met {
            match met {
                Met::Skip(line) => {
                    log.push_str(line).ok()?;
                    skip = skip.wrapping_add(1);
                }
                Met::Object(object) => {
                    push_fitting(&mut log, object.done, quick)?;
                    fitting = fitting.wrapping_add(1);
                }
            }
        }
        log.push_str(beside::LINES).ok()?;
        let (extra, stray) = (beside::EXTRA, beside::STRAY);
        let end = if quick {
            format!(in alloc;
                "{{\"absent\":0,\"alike\":{fitting},\"as\":\"end\",\"differs\":0,{extra},\"skip\":{skip},{stray}}}\n"
            )
        } else {
            format!(in alloc;
                "{{\"absent\":0,\"as\":\"end\",\"differs\":0,{extra},\"same\":{fitting},\"skip\":{skip},{stray}}}\n"
            )
        };
        log.push_str(end.ok()?.as_str()).ok()?;
        Some(Expected { status: 1, log })
    }
}

// The line of an object that fits, by that of the run that carried it: by lengths neither bytes nor
// empty folders are told.
fn push_fitting(log: &mut String, done: &str, quick: bool) -> Option<()> {
    let members = done.strip_prefix("{\"as\":\"done\"")?;
    if !quick {
        log.push_str("{\"as\":\"same\"").ok()?;
        return log.push_str(members).ok();
    }
    let (at, rest) = members.split_once(",\"bytes\":")?;
    let (_, files) = rest.split_once(",\"files\":")?;
    log.push_str("{\"as\":\"alike\"").ok()?;
    log.push_str(at).ok()?;
    log.push_str(",\"files\":").ok()?;
    log.push_str(files).ok()
}

impl Counts {
    // The line of what a run meets, which is counted.
    fn line_of(&mut self, alloc: Global, met: &Met, root: &MemDest) -> Option<&'static str> {
        let object = match met {
            Met::Skip(line) => {
                self.skip = self.skip.wrapping_add(1);
                return Some(line);
            }
            Met::Object(object) => object,
        };
        if object.stands(alloc, root)? {
            self.present = self.present.wrapping_add(1);
            Some(object.present)
        } else {
            self.done = self.done.wrapping_add(1);
            Some(object.done)
        }
    }

    fn last_line(&self, alloc: Global) -> Result<String, AllocError> {
        let Counts {
            done,
            present,
            skip,
        } = self;
        format!(in alloc;
            "{{\"as\":\"end\",\"done\":{done},\"present\":{present},\"skip\":{skip}}}\n"
        )
    }

    // The status is 0 where all was carried.
    fn status(&self) -> u8 {
        u8::from(self.present > 0 || self.skip > 0)
    }
}
