//! The records of a text, one after another. A field is a part of the text, and is copied only if quotes part its bytes.
//! So reading takes little memory, however many fields a record has.

ghost use Rattle.std.specs.Prelude.{◌≡◌, ◌==◌, ◌++◌, ◌∷◌, [], ℕ, List, not, position, IfOk, MatchBool, MatchOption};
ghost use Rattle.csv.specs.declared.parser.State.TheVariants as st;
ghost use Rattle.csv.specs.Writing.{quote_mark};
ghost use Rattle.dam_results.specs.Records.{records_of};
ghost use Rattle.dam_results.specs.inside.Reader.{bytes_of, fields_of, records_left, IsUnquoted, ends_line, ends_field, EndsField, Continues, BeginsWithRecord, StartsRecord, TakesFirst};

use std::alloc::{AllocError, Global};

/// The most fields of a record that are kept: one more than a valid record has, which shows that it has too many.
const MOST_KEPT: usize = 10;

/// A field of a record.
#[derive(Drop)]
pub(crate) enum Field<'a> {
    /// Its bytes are next to one another in the text.
    Part(&'a [u8]),
    /// A quote in it was doubled, or bytes come after its closing quote.
    Joined(Vec<u8>),
}

impl<'a> Field<'a> {
    pub(crate) fn bytes(&self) -> &[u8]
        ensures { result.now ≡ bytes_of self.now }
    {
        match self {
            Field::Part(bytes) => bytes,
            Field::Joined(bytes) => bytes.as_slice(),
        }
    }
}

/// The text after a field, and whether the record goes on in it.
#[derive(Clone, Copy)]
struct After<'a> {
    text: &'a [u8],
    goes_on: bool,
}

fn ends_line(byte: u8) -> bool
    ensures { result ≡ ends_line byte }
{
    byte == b'\r' || byte == b'\n'
}

fn ends_field(byte: u8) -> bool
    ensures { result ≡ ends_field byte }
{
    byte == b',' || ends_line(byte)
}

/// The place of the first byte that doesn't end a line.
fn record_start(text: &[u8]) -> Option<usize>
    ensures { result ≡ position (λ byte. not (ends_line byte)) text.now }
{
    text.iter().position(|byte| !ends_line(*byte))
}

/// The place of the first byte that ends a field, outside quotes.
fn first_field_end(text: &[u8]) -> Option<usize>
    ensures { result ≡ position ends_field text.now }
{
    text.iter().position(|byte| ends_field(*byte))
}

fn first_quote(text: &[u8]) -> Option<usize>
    ensures { result ≡ position (λ byte. byte == quote_mark) text.now }
{
    text.iter().position(|byte| *byte == b'"')
}

/// The text without the quote that begins it, or `None` if none does.
fn strip_quote(text: &[u8]) -> Option<&[u8]>
    ensures { MatchOption result (IsUnquoted text.entry.now)
        (λ rest. text.entry.now ≡ quote_mark ∷ rest.now) }
{
    match text {
        [b'"', rest @ ..] => Some(rest),
        _ => None,
    }
}

/// The text from the next record on, or `None` if only line ends are left.
fn from_next_record(text: &[u8]) -> Option<&[u8]>
    ensures { MatchOption result (records_of text.entry.now ≡ [])
        (λ start. StartsRecord text.entry.now start.now) }
{
    let start = record_start(text)?;
    Some(&text[start..])
}

/// The bytes before the comma or line end that ends a field, and the text after it.
fn bare_part<'a>(text: &'a [u8]) -> (&'a [u8], After<'a>)
    ensures ends { (begun : List ℕ) → EndsField st.InField begun text.entry.now
        (begun ++ result.0.now) result.1.text.now result.1.goes_on }
    ensures unquoted { result.0.now ≡ [] → IsUnquoted text.entry.now }
{
    match first_field_end(text) {
        None => {
            let after = After {
                text: &[],
                goes_on: false,
            };
            (text, after)
        }
        Some(end) => {
            let after = After {
                text: &text[end + 1..],
                goes_on: text[end] == b',',
            };
            (&text[..end], after)
        }
    }
}

/// The bytes before the next quote, and the text after it.
fn quoted_part<'a>(text: &'a [u8]) -> (&'a [u8], &'a [u8])
    ensures { (begun : List ℕ) → Continues st.InQuoted begun text.entry.now
        st.AfterQuote (begun ++ result.0.now) result.1.now }
{
    match first_quote(text) {
        None => (text, &[]),
        Some(end) => (&text[..end], &text[end + 1..]),
    }
}

/// Joins the bytes of a field: its first part in quotes, and the others in the text after that part.
fn read_joined<'a>(
    alloc: Global,
    first: &[u8],
    text: &'a [u8],
) -> Result<(Field<'a>, After<'a>), AllocError>
    ensures { IfOk result (λ read. EndsField st.AfterQuote first.now text.entry.now
        (bytes_of read.0) read.1.text.now read.1.goes_on) }
{
    let mut field = Vec::from_slice(alloc, first)?;
    let mut rest = text;
    while let Some(doubled) = strip_quote(rest) {
        let (part, later) = quoted_part(doubled);
        field.push(b'"')?;
        field.extend_from_slice(part)?;
        rest = later;
    }
    let (part, after) = bare_part(rest);
    field.extend_from_slice(part)?;
    Ok((Field::Joined(field), after))
}

/// Reads the field whose opening quote comes before the text.
fn read_quoted<'a>(alloc: Global, text: &'a [u8]) -> Result<(Field<'a>, After<'a>), AllocError>
    ensures { IfOk result (λ read. EndsField st.InQuoted [] text.entry.now
        (bytes_of read.0) read.1.text.now read.1.goes_on) }
{
    let (first, rest) = quoted_part(text);
    let (bare, after) = bare_part(rest);
    if bare.is_empty() {
        Ok((Field::Part(first), after))
    } else {
        read_joined(alloc, first, rest)
    }
}

/// Reads the field that begins the text.
fn read_field<'a>(alloc: Global, text: &'a [u8]) -> Result<(Field<'a>, After<'a>), AllocError>
    ensures { IfOk result (λ read. EndsField st.StartField [] text.entry.now
        (bytes_of read.0) read.1.text.now read.1.goes_on) }
{
    match strip_quote(text) {
        Some(quoted) => read_quoted(alloc, quoted),
        None => {
            let (bare, after) = bare_part(text);
            Ok((Field::Part(bare), after))
        }
    }
}

/// Reads the record that begins the text, and returns the text after it.
fn read_record_into<'a>(
    alloc: Global,
    text: &'a [u8],
    fields: &mut Vec<Field<'a>>,
) -> Result<&'a [u8], AllocError>
    ensures { IfOk result (λ rest.
        BeginsWithRecord text.entry.now rest.now (fields_of fields.new.items)) }
{
    fields.clear();
    fields.reserve(MOST_KEPT)?;
    let mut rest = text;
    loop {
        let (field, after) = read_field(alloc, rest)?;
        if fields.len() < MOST_KEPT {
            fields.push(field)?;
        }
        if !after.goes_on {
            return Ok(after.text);
        }
        rest = after.text;
    }
}

/// The records of a text, of which one is read at a time.
#[derive(Drop)]
pub(crate) struct Records<'a> {
    alloc: Global,
    rest: &'a [u8],
    /// The first fields of the record that was read last.
    fields: Vec<Field<'a>>,
}

impl<'a> Records<'a> {
    pub(crate) fn of(alloc: Global, text: &'a [u8]) -> Records<'a>
        ensures { records_left result ≡ records_of text.entry.now }
    {
        Records {
            alloc,
            rest: text,
            fields: Vec::new(alloc),
        }
    }

    /// Reads the next record, and says whether there was one.
    pub(crate) fn read_next(&mut self) -> Result<bool, AllocError>
        ensures { IfOk result (λ found. MatchBool found
            (TakesFirst (records_left self.old) (records_left self.new)
            (fields_of self.new.fields.items))
            (records_left self.old ≡ [])) }
    {
        let Some(record) = from_next_record(self.rest) else {
            return Ok(false);
        };
        self.rest = read_record_into(self.alloc, record, &mut self.fields)?;
        Ok(true)
    }

    /// The first fields of the record that was read last: all of them, or `MOST_KEPT`.
    pub(crate) fn fields(&self) -> &[Field<'a>]
        ensures { result.now ≡ self.now.fields.items }
    {
        self.fields.as_slice()
    }
}
