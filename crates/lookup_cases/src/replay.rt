//! The lines one after the other: each case, and the records that belong to it.
use crate::answered::{Answered, RECORD_LEN, Words};
use crate::line::Line;
use std::alloc::Global;
use std::{fmt, io};

// A case whose records are still to come.
#[derive(Drop)]
struct Case {
    answered: Answered,
    agrees: bool,
    // how many lines of records follow, and how many of them came
    record_lines: u64,
    seen: u64,
}

/// The file of the present cases, and the last of them; how many cases there were before it, and how many of them
/// differ.
#[derive(Drop)]
pub struct Replay {
    file: Vec<u8>,
    last: Option<Case>,
    pub cases: u64,
    pub differ: u64,
}

impl Case {
    fn record(
        &mut self,
        rt: &impl Print,
        line: &str,
        expected: &[u64; RECORD_LEN],
    ) -> io::Result<()> {
        let record = self.answered.record(self.seen as usize);
        let numbers: &[u64] = match &record {
            Some(numbers) => numbers,
            None => &[],
        };
        let agrees = numbers == expected.as_slice();
        if !agrees {
            println!(rt; "{line}\n  answered{}", Words(numbers))?;
        }
        self.agrees = self.agrees && agrees && self.seen < self.record_lines;
        self.seen = self.seen.saturating_add(1);
        Ok(())
    }
}

impl Replay {
    /// No file and no case yet.
    pub fn new(alloc: Global) -> Replay {
        Replay {
            file: Vec::new(alloc),
            last: None,
            cases: 0,
            differ: 0,
        }
    }

    fn count(&mut self, agrees: bool) {
        self.cases = self.cases.saturating_add(1);
        if !agrees {
            self.differ = self.differ.saturating_add(1);
        }
    }

    /// Counts the last case; one whose records did not all come differs.
    pub fn close(&mut self, rt: &impl Print) -> io::Result<()> {
        if let Some(case) = self.last.take() {
            let missing = case.seen < case.record_lines;
            if missing {
                println!(rt; "records are missing")?;
            }
            self.count(case.agrees && !missing);
        }
        Ok(())
    }

    // A line that cannot be read, or a record of no case, counts as a case that differs.
    fn refuse(
        &mut self,
        rt: &impl Print,
        line: &str,
        why: impl fmt::Display + Drop,
    ) -> io::Result<()> {
        self.count(false);
        println!(rt; "{line}\n  not replayed: {why}")
    }

    /// Remarks and empty lines say nothing.
    pub fn take_line(&mut self, rt: &impl Print, alloc: Global, line: &str) -> io::Result<()> {
        if line.is_empty() || line.starts_with('#') {
            return Ok(());
        }
        let parsed = Line::parse(alloc, line);
        if let (Ok(Line::Record(expected)), Some(case)) = (&parsed, &mut self.last) {
            return case.record(rt, line, expected);
        }
        self.close(rt)?;
        match parsed {
            Ok(Line::File(file)) => self.file = file,
            Ok(Line::Case(question, expected)) => {
                let answered = question.ask(&self.file);
                let agrees = answered.agrees_without_list && expected.is_met_by(&answered);
                if !agrees {
                    println!(rt; "{line}\n  answered{answered}")?;
                }
                self.last = Some(Case {
                    answered,
                    agrees,
                    record_lines: expected.record_lines(),
                    seen: 0,
                });
            }
            Ok(Line::Record(_)) => self.refuse(rt, line, "a record of no case")?,
            Err(error) => self.refuse(rt, line, error)?,
        }
        Ok(())
    }
}
