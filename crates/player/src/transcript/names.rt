//! Octets that have a name.
use crate::transcript::Words;
use std::alloc::{AllocError, Global};

/// A name with its octets.
#[derive(Drop)]
struct Named {
    name: String,
    octets: Vec<u8>,
}

/// Names, in the order in which they were given, with their octets.
#[derive(Drop)]
pub struct Names {
    alloc: Global,
    entries: Vec<Named>,
}

impl Names {
    /// No names.
    pub fn new(alloc: Global) -> Names {
        Names {
            alloc,
            entries: Vec::new(alloc),
        }
    }

    /// The octets of a name; none where it has none.
    pub fn octets(&self, name: &str) -> &[u8] {
        match self
            .entries
            .iter()
            .find(|named| named.name.as_str() == name)
        {
            Some(named) => &named.octets,
            None => &[],
        }
    }

    /// The text of a name; an empty one where its octets are none.
    pub fn text(&self, name: &str) -> &str {
        str::from_utf8(self.octets(name)).unwrap_or("")
    }

    /// The first name of those octets.
    pub fn name_of(&self, octets: &[u8]) -> Option<&str> {
        let found = self
            .entries
            .iter()
            .find(|named| named.octets.as_slice() == octets)?;
        Some(&found.name)
    }

    /// Gives octets a name.
    pub fn add(&mut self, name: &str, octets: Vec<u8>) -> Result<(), AllocError> {
        let name = String::from_str(self.alloc, name)?;
        self.entries.push(Named { name, octets })?;
        Ok(())
    }

    /// Gives the names of a text by its lines `octets NAME EXPRESSION`. A line `+ EXPRESSION` goes on behind one.
    pub fn read(&mut self, text: &str) -> Result<(), AllocError> {
        for line in text.lines() {
            if let Some(rest) = line.strip_prefix("octets ") {
                self.define(rest)?;
            } else if let Some(rest) = line.strip_prefix("+ ") {
                self.extend(rest)?;
            }
        }
        Ok(())
    }

    fn define(&mut self, line: &str) -> Result<(), AllocError> {
        let mut words = Words { rest: line };
        let name = words.next();
        let octets = self.octets_of(words.rest)?;
        self.add(name, octets)
    }

    /// Appends to the octets that were given last.
    fn extend(&mut self, expression: &str) -> Result<(), AllocError> {
        let more = self.octets_of(expression)?;
        match self.entries.last_mut() {
            Some(named) => named.octets.extend_from_slice(&more),
            None => Ok(()),
        }
    }

    /// The octets of an expression.
    pub fn octets_of(&self, expression: &str) -> Result<Vec<u8>, AllocError> {
        let mut octets = Vec::new(self.alloc);
        self.fill(expression, &mut octets)?;
        Ok(octets)
    }

    /// Appends the octets of an expression: texts between quotation marks of either kind, hexadecimal digits, such
    /// after a count and a star, and names, parted by spaces.
    pub fn fill(&self, expression: &str, octets: &mut Vec<u8>) -> Result<(), AllocError> {
        let mut rest = expression;
        for _ in 0..expression.len() {
            if rest.is_empty() {
                break;
            }
            rest = self.append(rest, octets)?;
        }
        Ok(())
    }

    /// Appends the first part of an expression, and gives the others.
    pub fn append<'e>(
        &self,
        expression: &'e str,
        octets: &mut Vec<u8>,
    ) -> Result<&'e str, AllocError> {
        if let Some(inside) = expression.strip_prefix('"') {
            append_text(inside, '"', octets)
        } else if let Some(inside) = expression.strip_prefix('\'') {
            append_text(inside, '\'', octets)
        } else {
            self.append_word(expression, octets)
        }
    }

    fn append_word<'e>(
        &self,
        expression: &'e str,
        octets: &mut Vec<u8>,
    ) -> Result<&'e str, AllocError> {
        let mut words = Words { rest: expression };
        let word = words.next();
        if word.starts_with(|first: char| first.is_ascii_uppercase()) {
            octets.extend_from_slice(self.octets(word))?;
        } else {
            append_digits(word, octets)?;
        }
        Ok(words.rest)
    }
}

/// The octet of a letter behind a backslash: `r`, `n`, `t` and `0` are controls.
fn control(letter: u8) -> u8 {
    match letter {
        b'r' => b'\r',
        b'n' => b'\n',
        b't' => b'\t',
        b'0' => 0,
        other => other,
    }
}

/// Appends a text, in which a backslash stands before the letter of a control.
fn push_text(text: &str, octets: &mut Vec<u8>) -> Result<(), AllocError> {
    let mut is_control = false;
    for octet in text.bytes() {
        if is_control {
            octets.push(control(octet))?;
            is_control = false;
        } else if octet == b'\\' {
            is_control = true;
        } else {
            octets.push(octet)?;
        }
    }
    Ok(())
}

/// Appends a text up to its quotation mark, and gives what stands behind that.
fn append_text<'e>(
    inside: &'e str,
    mark: char,
    octets: &mut Vec<u8>,
) -> Result<&'e str, AllocError> {
    let (text, behind) = inside.split_once(mark).unwrap_or((inside, ""));
    push_text(text, octets)?;
    Ok(behind.strip_prefix(' ').unwrap_or(behind))
}

/// Appends pairs of hexadecimal digits.
fn push_digits(digits: &str, octets: &mut Vec<u8>) -> Result<(), AllocError> {
    let mut high: Option<u8> = None;
    for digit in digits.chars() {
        let value = digit.to_digit(16).unwrap_or(0) as u8 & 15;
        high = match high {
            None => Some(value),
            Some(before) => {
                octets.push(before << 4 | value)?;
                None
            }
        };
    }
    Ok(())
}

/// Appends hexadecimal digits, as many times as a count before a star says.
fn append_digits(word: &str, octets: &mut Vec<u8>) -> Result<(), AllocError> {
    let (count, digits) = match word.split_once('*') {
        Some((count, digits)) => (count.parse().unwrap_or(0), digits),
        None => (1u32, word),
    };
    for _ in 0..count {
        push_digits(digits, octets)?;
    }
    Ok(())
}
