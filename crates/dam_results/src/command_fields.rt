//! A day or a command, read from nine fields; or the number of the first field that breaks its rule.

ghost use Rattle.std.specs.Prelude.{◌≡◌, ◌≢◌, ◌<◌, [], ◌∷◌, true, false, codes, drop, IfSome, MatchOption, MatchResult};
ghost use Rattle.dam_book.specs.Period.{IsPeriod};
ghost use Rattle.dam_book.specs.Quantity.{IsQuantity};
ghost use Rattle.std.specs.Result.{IsErrAnd};
ghost use Rattle.std.specs.Str.{bytes_eq};
ghost use Rattle.dam_book.specs.Name.{IsName};
ghost use Rattle.dam_book.specs.Fields.{volumes_text};
ghost use Rattle.dam_book.specs.Book.{is_day};
ghost use Rattle.dam_results.specs.Records.{record_of_day, optional_text, side_word};
ghost use Rattle.dam_results.specs.inside.NineFields.{fields_in, ChecksEmpty, ReadsCommand};
ghost use Rattle.dam_results.specs.Rules.{OneOf, OneVolume, NameOrEmpty, Obeys, IsLeastBroken, day_rules, hour_rules, block_rules, submit_of, submit_rules, amend_rules, cancel_rules, close_rules, command_rules};

use crate::nine_fields::NineFields;
use dam_book::{
    BlockOrder, Command, DayLength, HourOrder, Name, Order, Participant, Period, Qty, Side,
    read_day_length, read_pair, read_price, read_volumes,
};

// Each reader returns the number of the least field that breaks its rule, if there is one. The readers of commands write
// the command to their argument: a command has room for the volumes of a block, and to return it from function to function
// would make each record slower.

fn check_empty(field: &[u8], number: usize) -> Result<(), usize>
    ensures { MatchResult result (λ _. field.now ≡ [])
        (λ broken. (broken ≡ number) × (field.now ≢ [])) }
{
    if field.is_empty() {
        Ok(())
    } else {
        Err(number)
    }
}

/// The fields 8 and 9: no parent and no group.
fn check_no_family(fields: &NineFields) -> Result<(), usize>
    ensures { ChecksEmpty 8 (drop 7 (fields_in fields.now)) result }
{
    check_empty(fields.parent, 8)?;
    check_empty(fields.group, 9)
}

/// The fields 4 to 9, which state the order.
fn check_no_order(fields: &NineFields) -> Result<(), usize>
    ensures { ChecksEmpty 4 (drop 3 (fields_in fields.now)) result }
{
    check_empty(fields.form, 4)?;
    check_empty(fields.side, 5)?;
    check_empty(fields.price, 6)?;
    check_empty(fields.volumes, 7)?;
    check_no_family(fields)
}

fn read_side(field: &[u8]) -> Option<Side>
    ensures { MatchOption result
        (¬ (Obeys (OneOf (codes "buy" ∷ codes "sell" ∷ [])) field.now))
        (λ side. field.now ≡ side_word side) }
{
    if field == b"buy".as_slice() {
        Some(Side::Buy)
    } else if field == b"sell".as_slice() {
        Some(Side::Sell)
    } else {
        None
    }
}

fn read_one_pair(field: &[u8]) -> Option<(Period, Qty)>
    ensures { MatchOption result
        (¬ (Obeys OneVolume field.now))
        (λ pair. IsPeriod pair.0 × IsQuantity pair.1
        × (field.now ≡ volumes_text ((pair.0, pair.1) ∷ []))) }
{
    let Some(pair) = read_pair(field) else {
        return None;
    };
    Some(pair)
}

/// A name, or none if the field is empty.
fn read_name_or_empty(field: &[u8]) -> Option<Option<Name>>
    ensures { MatchOption result
        (¬ (Obeys NameOrEmpty field.now))
        (λ name. IfSome name IsName × (field.now ≡ optional_text name)) }
{
    if field.is_empty() {
        return Some(None);
    }
    let name = Name::new(field)?;
    Some(Some(name))
}

/// The day of the first record: how many periods it has.
pub(crate) fn read_day(fields: &NineFields) -> Result<DayLength, usize>
    requires { fields.now.kind.now ≡ codes "day" }
    ensures { MatchResult result
        (λ periods. (is_day periods ≡ true) × (fields_in fields.now ≡ record_of_day periods))
        (IsLeastBroken day_rules (fields_in fields.now)) }
{
    let periods = read_day_length(fields.who).ok_or(2usize)?;
    check_empty(fields.name, 3)?;
    check_no_order(fields)?;
    Ok(periods)
}

fn read_hourly_order_into(fields: &NineFields, command: &mut Command) -> Result<(), usize>
    requires kind { fields.now.kind.now ≡ codes "submit" }
    requires form { fields.now.form.now ≡ codes "hour" }
    ensures { ReadsCommand (submit_of hour_rules) fields.now command.new result }
{
    let who = Participant::new(fields.who).ok_or(2usize)?;
    let name = Name::new(fields.name).ok_or(3usize)?;
    let side = read_side(fields.side).ok_or(5usize)?;
    let price = read_price(fields.price).ok_or(6usize)?;
    let (period, qty) = read_one_pair(fields.volumes).ok_or(7usize)?;
    check_no_family(fields)?;
    *command = Command::Submit {
        who,
        name,
        order: Order::Hour(HourOrder::new(side, price, period, qty)),
    };
    Ok(())
}

fn read_block_into(fields: &NineFields, command: &mut Command) -> Result<(), usize>
    requires kind { fields.now.kind.now ≡ codes "submit" }
    requires form { fields.now.form.now ≡ codes "block" }
    ensures { ReadsCommand (submit_of block_rules) fields.now command.new result }
{
    let who = Participant::new(fields.who).ok_or(2usize)?;
    let name = Name::new(fields.name).ok_or(3usize)?;
    let side = read_side(fields.side).ok_or(5usize)?;
    let price = read_price(fields.price).ok_or(6usize)?;
    let volumes = read_volumes(fields.volumes).ok_or(7usize)?;
    let parent = read_name_or_empty(fields.parent).ok_or(8usize)?;
    let group = read_name_or_empty(fields.group).ok_or(9usize)?;
    let block = BlockOrder::new(side, price, volumes, parent, group);
    let _valid = block.price(); // for the proof: a block order is within its limits
    let order = Order::Block(block);
    *command = Command::Submit { who, name, order };
    Ok(())
}

/// Fails with the number of the least field that breaks its rule, in a submit whose form is neither `hour` nor `block`.
fn fail_unknown_form(fields: &NineFields) -> Result<(), usize>
    requires kind { fields.now.kind.now ≡ codes "submit" }
    requires hour { bytes_eq fields.now.form.now (codes "hour") ≡ false }
    requires block { bytes_eq fields.now.form.now (codes "block") ≡ false }
    ensures { IsErrAnd result
        (IsLeastBroken (submit_rules (fields_in fields.now)) (fields_in fields.now)) }
{
    let _who = Participant::new(fields.who).ok_or(2usize)?;
    let _name = Name::new(fields.name).ok_or(3usize)?;
    Err(4)
}

fn read_submit_into(fields: &NineFields, command: &mut Command) -> Result<(), usize>
    requires { fields.now.kind.now ≡ codes "submit" }
    ensures { ReadsCommand (submit_rules (fields_in fields.now)) fields.now command.new result }
{
    match fields.form {
        b"hour" => read_hourly_order_into(fields, command),
        b"block" => read_block_into(fields, command),
        _ => fail_unknown_form(fields),
    }
}

fn read_amend_into(fields: &NineFields, command: &mut Command) -> Result<(), usize>
    requires { fields.now.kind.now ≡ codes "amend" }
    ensures { ReadsCommand amend_rules fields.now command.new result }
{
    let who = Participant::new(fields.who).ok_or(2usize)?;
    let name = Name::new(fields.name).ok_or(3usize)?;
    check_empty(fields.form, 4)?;
    check_empty(fields.side, 5)?;
    let price = read_price(fields.price).ok_or(6usize)?;
    let volumes = read_volumes(fields.volumes).ok_or(7usize)?;
    check_no_family(fields)?;
    *command = Command::Amend {
        who,
        name,
        price,
        volumes,
    };
    Ok(())
}

fn read_cancel_into(fields: &NineFields, command: &mut Command) -> Result<(), usize>
    requires { fields.now.kind.now ≡ codes "cancel" }
    ensures { ReadsCommand cancel_rules fields.now command.new result }
{
    let who = Participant::new(fields.who).ok_or(2usize)?;
    let name = Name::new(fields.name).ok_or(3usize)?;
    check_no_order(fields)?;
    *command = Command::Cancel { who, name };
    Ok(())
}

fn read_close_into(fields: &NineFields, command: &mut Command) -> Result<(), usize>
    requires { fields.now.kind.now ≡ codes "close" }
    ensures { ReadsCommand close_rules fields.now command.new result }
{
    check_empty(fields.who, 2)?;
    check_empty(fields.name, 3)?;
    check_no_order(fields)?;
    *command = Command::Close;
    Ok(())
}

/// Reads the command of a later record.
pub(crate) fn read_command_into(fields: &NineFields, command: &mut Command) -> Result<(), usize>
    ensures { ReadsCommand (command_rules (fields_in fields.now)) fields.now command.new result }
{
    match fields.kind {
        b"submit" => read_submit_into(fields, command),
        b"amend" => read_amend_into(fields, command),
        b"cancel" => read_cancel_into(fields, command),
        b"close" => read_close_into(fields, command),
        _ => Err(1),
    }
}
