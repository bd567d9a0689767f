//! The writer of journals: a record of the day, and then one of each command.

ghost use Rattle.std.specs.Prelude.{◌≡◌, ◌≤◌, ◌++◌, ◌∷◌, [], ℕ, List, true, length, map, IfOk, OnOk};
ghost use Rattle.std.specs.Option.{option_copied};
ghost use Rattle.csv.specs.Writing.{default_writer, row_text};
ghost use Rattle.dam_book.specs.Price.{IsPrice};
ghost use Rattle.dam_book.specs.Volumes.{IsVolumes};
ghost use Rattle.dam_book.specs.Terms.{IsHourOrder};
ghost use Rattle.dam_book.specs.Fields.{price_text, volumes_text};
ghost use Rattle.dam_book.specs.Book.{is_day, commands_of};
ghost use Rattle.dam_book.specs.Limits.{most_entries};
ghost use Rattle.dam_book.specs.declared.command.Command.{Command};
ghost use Rattle.dam_results.specs.Records.{optional_text, side_word, record_of_day};
ghost use Rattle.dam_results.specs.Journal.{IsCommand, ReadsAs};
ghost use Rattle.dam_results.specs.Written.{record_line};
ghost use Rattle.dam_results.specs.Writer.{HasWritten};
ghost use Rattle.dam_results.specs.Written;
ghost use Rattle.dam_results.specs.inside.Writer.{Wrote, WritesCommand};

use csv::{Writer, WriterBuilder};
use dam_book::{
    BlockOrder, Command, DayLength, HourOrder, Name, Order, PackedEntry, Participant, Price, Side,
    Volumes, write_pair, write_price, write_volumes,
};
use itoa::Buffer;
use std::alloc::{AllocError, Global};

fn side_field<'a>(side: Side) -> &'a [u8]
    ensures { result.now ≡ side_word side }
{
    match side {
        Side::Buy => b"buy",
        Side::Sell => b"sell",
    }
}

fn price_field(alloc: Global, price: Price) -> Result<Vec<u8>, AllocError>
    ensures { IfOk result (λ field. IsPrice price × (field.items ≡ price_text price)) }
{
    let _in_range = price.get(); // for the proof: a price is within its limits
    let mut field = Vec::new(alloc);
    write_price(&mut field, price)?;
    Ok(field)
}

fn volumes_field(alloc: Global, volumes: &Volumes) -> Result<Vec<u8>, AllocError>
    ensures { IfOk result (λ field.
        IsVolumes volumes.now × (field.items ≡ volumes_text volumes.now)) }
{
    let _valid = volumes.pairs(); // for the proof: volumes are within their limits
    let mut field = Vec::new(alloc);
    write_volumes(&mut field, volumes)?;
    Ok(field)
}

fn name_field(name: Option<&Name>) -> &[u8]
    ensures { result.now ≡ optional_text (option_copied name.entry) }
{
    match name {
        None => b"",
        Some(name) => name.as_bytes(),
    }
}

// The period and the volume of an hourly order; no list of volumes is made for it, which would have room
// for every period of a day.
fn pair_field(alloc: Global, order: &HourOrder) -> Result<Vec<u8>, AllocError>
    ensures { IfOk result (λ field. IsHourOrder order.now
        × (field.items ≡ volumes_text ((order.now.period, order.now.qty) ∷ []))) }
{
    let mut field = Vec::new(alloc);
    write_pair(&mut field, (order.period(), order.qty()))?;
    Ok(field)
}

fn write_record(out: &mut Writer<Vec<u8>>, fields: &[&[u8]]) -> Result<(), AllocError>
    ensures { OnOk result ((text : List ℕ) → Wrote out.old text
        → Wrote out.new (text ++ row_text default_writer (map (λ f. f.now) fields.now))) }
{
    if out.write_fields(fields).is_err() {
        return Err(AllocError);
    }
    Ok(())
}

fn write_day_record(out: &mut Writer<Vec<u8>>, periods: DayLength) -> Result<(), AllocError>
    ensures line { OnOk result ((text : List ℕ) → Wrote out.old text
        → Wrote out.new (text ++ record_line (record_of_day periods))) }
    ensures valid { is_day periods ≡ true }
{
    let mut number = Buffer::new();
    let periods = number.format(periods.get()).as_bytes();
    write_record(out, &[b"day", periods, b"", b"", b"", b"", b"", b"", b""])
}

fn write_hourly_order_record(
    alloc: Global,
    out: &mut Writer<Vec<u8>>,
    who: &Participant,
    name: &Name,
    order: &HourOrder,
) -> Result<(), AllocError>
    ensures { OnOk result (WritesCommand out.old out.new
        (Command.Submit who.now name.now (Order.Hour order.now))) }
{
    let price = price_field(alloc, order.price())?;
    let volumes = pair_field(alloc, order)?;
    write_record(
        out,
        &[
            b"submit",
            who.as_bytes(),
            name.as_bytes(),
            b"hour",
            side_field(order.side()),
            price.as_slice(),
            volumes.as_slice(),
            b"",
            b"",
        ],
    )
}

fn write_block_record<'a>(
    alloc: Global,
    out: &mut Writer<Vec<u8>>,
    who: &'a Participant,
    name: &'a Name,
    order: &'a BlockOrder,
) -> Result<(), AllocError>
    ensures { OnOk result (WritesCommand out.old out.new
        (Command.Submit who.entry.now name.entry.now (Order.Block order.entry.now))) }
{
    let price = price_field(alloc, order.price())?;
    let volumes = volumes_field(alloc, order.volumes())?;
    write_record(
        out,
        &[
            b"submit",
            who.as_bytes(),
            name.as_bytes(),
            b"block",
            side_field(order.side()),
            price.as_slice(),
            volumes.as_slice(),
            name_field(order.parent()),
            name_field(order.group()),
        ],
    )
}

fn write_command_record(
    alloc: Global,
    out: &mut Writer<Vec<u8>>,
    command: &Command,
) -> Result<(), AllocError>
    ensures { OnOk result (WritesCommand out.old out.new command.now) }
{
    match command {
        Command::Submit {
            who,
            name,
            order: Order::Hour(order),
        } => write_hourly_order_record(alloc, out, who, name, order),
        Command::Submit {
            who,
            name,
            order: Order::Block(order),
        } => write_block_record(alloc, out, who, name, order),
        Command::Amend {
            who,
            name,
            price,
            volumes,
        } => {
            let price = price_field(alloc, *price)?;
            let volumes = volumes_field(alloc, volumes)?;
            let (who, name) = (who.as_bytes(), name.as_bytes());
            let (price, volumes) = (price.as_slice(), volumes.as_slice());
            write_record(
                out,
                &[b"amend", who, name, b"", b"", price, volumes, b"", b""],
            )
        }
        Command::Cancel { who, name } => {
            let (who, name) = (who.as_bytes(), name.as_bytes());
            write_record(out, &[b"cancel", who, name, b"", b"", b"", b"", b"", b""])
        }
        Command::Close => write_record(out, &[b"close", b"", b"", b"", b"", b"", b"", b"", b""]),
    }
}

/// The written journal: the record of the day, and then the record of each entry's command, also if
/// it was refused. The fields of a record are joined by commas, with no quotes, and each record ends
/// in one LF.
///
/// It fails only if memory runs out.
pub fn journal_text(
    alloc: Global,
    periods: DayLength,
    entries: &[PackedEntry],
) -> Result<Vec<u8>, AllocError>
    requires { length entries.now ≤ most_entries }
    ensures text { IfOk result (λ text. text.items ≡ Written.journal_text periods entries.now) }
    ensures reads { IfOk result (λ text. ReadsAs text.items periods (commands_of entries.now)) }
{
    let mut writer = JournalWriter::begin(alloc, periods)?;
    for entry in entries {
        writer.write_command(&entry.command().command())?;
    }
    writer.into_text()
}

/// The written journal of a day, which grows by the record of one command after another. A contract sees the text so far.
#[derive(Drop)]
pub struct JournalWriter {
    alloc: Global,
    pub(crate) out: Writer<Vec<u8>>,
}

impl JournalWriter {
    /// A journal with the record of its day, and no command yet.
    pub fn begin(alloc: Global, periods: DayLength) -> Result<JournalWriter, AllocError>
        ensures written { IfOk result (λ writer. HasWritten writer (Written.written periods [])) }
        ensures valid { is_day periods ≡ true }
    {
        let mut out = WriterBuilder::new().from_writer(Vec::new(alloc));
        write_day_record(&mut out, periods)?;
        Ok(JournalWriter { alloc, out })
    }

    /// Adds the record of a command.
    pub fn write_command(&mut self, command: &Command) -> Result<(), AllocError>
        ensures written { OnOk result ((periods : ℕ) → (commands : List Command)
            → HasWritten self.old (Written.written periods commands)
            → HasWritten self.new (Written.written periods (commands ++ command.now ∷ []))) }
        ensures valid { OnOk result (IsCommand command.now) }
    {
        write_command_record(self.alloc, &mut self.out, command)
    }

    /// The text.
    pub fn into_text(self) -> Result<Vec<u8>, AllocError>
        ensures { IfOk result (λ text. (written : List ℕ) → HasWritten self written
            → text.items ≡ written) }
    {
        match self.out.into_inner() {
            Ok(text) => Ok(text),
            Err(_) => Err(AllocError),
        }
    }
}
