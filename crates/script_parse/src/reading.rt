ghost use Rattle.std.specs.Prelude.{◌≡◌, ◌^◌, ◌<◌, length, codes, IfOk};
ghost use Rattle.class_defs.specs.declared.declarations.Declarations.{Declarations};
ghost use Rattle.method_parse.specs.Matching.{is};
ghost use Rattle.method_parse.specs.Texts.{SpellsBlock, SpellsSetup};
ghost use Rattle.schedule.specs.Written.{AreEventsOf};
ghost use Rattle.std.specs.Prelude.{None};
ghost use Rattle.script_text.specs.Sections.{split_of};
ghost use Rattle.script_text.specs.declared.sections.Split.{Split};
ghost use Rattle.upgrade_defs.specs.Texts.{SpellsUpgrade};
ghost use Rattle.script_parse.specs.Reads.{Each, FirstRefused, Reads};
ghost use Rattle.script_parse.specs.Script.{AreItems, AreRefusedItems, IsRefusedItem, IsRefusedSchedule, IsRefusedSetup, IsRefusedSplit, IsRefusedText, IsSetupPart, IsSyntaxOf, IsItem, begins_with_tx, HasFew, HasParts, HasTokens, IsWritten};

use crate::error::ReadError;
use crate::refusal::Refusal;
use crate::script::{ClientItems, Items, Script};
use class_defs::{Block, Declarations, Upgrade};
use method_parse::{parse_block, parse_setup};
use schedule::{Events, parse_schedule};
use script_text::{
    ClientParts, ItemParts, Sections, Split, Token, TokenKind, Tokens, scan, split_sections,
};
use serial_model::What;
use std::alloc::Global;
use thor_value::Sequence;
use upgrade_defs::parse_upgrade;

/// Whether a token is the word `tx`.
fn is_tx(token: &Token) -> bool
    ensures { result ≡ is (codes "tx") token.now }
{
    matches!(token.kind, TokenKind::Keyword | TokenKind::Symbol)
        && token.text.bytes() == b"tx".as_slice()
}

/// Whether an item begins with the word `tx`.
fn begins_with_tx(item: &Tokens) -> bool
    ensures { result ≡ begins_with_tx item.now }
{
    match item.as_slice() {
        [] => false,
        [first, ..] => is_tx(first),
    }
}

fn read_block(alloc: Global, tokens: &Tokens) -> Result<Block, ReadError>
    ensures { Reads (SpellsBlock tokens.now) (IsSyntaxOf SpellsBlock tokens.now) result }
{
    Ok(parse_block(alloc, tokens)?)
}

fn read_upgrade(alloc: Global, tokens: &Tokens) -> Result<Upgrade, ReadError>
    ensures { Reads (SpellsUpgrade tokens.now) (IsSyntaxOf SpellsUpgrade tokens.now) result }
{
    Ok(parse_upgrade(alloc, tokens)?)
}

fn read_declarations(alloc: Global, tokens: &Tokens) -> Result<Declarations, ReadError>
    ensures { Reads (SpellsSetup tokens.now) (IsSyntaxOf SpellsSetup tokens.now) result }
{
    Ok(parse_setup(alloc, tokens)?)
}

fn read_schedule(alloc: Global, tokens: &Tokens) -> Result<Events, ReadError>
    ensures { Reads (AreEventsOf tokens.now) (IsRefusedSchedule tokens.now) result }
{
    Ok(parse_schedule(alloc, tokens)?)
}

/// An item: the word `tx` and a block, or an upgrade.
fn read_item(alloc: Global, item: Tokens) -> Result<What, ReadError>
    ensures { Reads (IsItem item) (IsRefusedItem item) result }
{
    let mut tokens = item;
    if !begins_with_tx(&tokens) {
        return match read_upgrade(alloc, &tokens) {
            Ok(upgrade) => Ok(What::Upgrade(upgrade)),
            Err(error) => Err(error),
        };
    }
    tokens.remove(0);
    match read_block(alloc, &tokens) {
        Ok(block) => Ok(What::Tx(block)),
        Err(error) => Err(error),
    }
}

/// The items of a client.
fn read_items(alloc: Global, items: ItemParts) -> Result<Items, ReadError>
    ensures { Reads (AreItems items) (AreRefusedItems items) result }
{
    let mut whats = Items::new(alloc);
    for item in items.into_vec() {
        match read_item(alloc, item) {
            Ok(what) => whats.push(what)?,
            Err(error) => return Err(error),
        }
    }
    Ok(whats)
}

/// The items of the clients.
fn read_clients(alloc: Global, clients: ClientParts) -> Result<ClientItems, ReadError>
    ensures { Reads (Each AreItems clients) (FirstRefused AreItems AreRefusedItems clients) result }
{
    let mut read = ClientItems::new(alloc);
    for client in clients.into_vec() {
        match read_items(alloc, client) {
            Ok(items) => read.push(items)?,
            Err(error) => return Err(error),
        }
    }
    Ok(read)
}

fn read_setup(alloc: Global, part: &Option<Tokens>) -> Result<Option<Declarations>, ReadError>
    ensures { Reads (IsSetupPart part.now) (IsRefusedSetup part.now) result }
{
    match part {
        None => Ok(None),
        Some(tokens) => Ok(Some(read_declarations(alloc, tokens)?)),
    }
}

/// The script that falls into these parts.
fn read_split(alloc: Global, split: Split) -> Result<Script, ReadError>
    ensures { Reads (λ script. HasParts split.sections script × (split.fault ≡ None)) (IsRefusedSplit split) result }
{
    let Split { sections, fault } = split;
    let Sections {
        setup,
        clients,
        schedule,
    } = sections;
    let setup = read_setup(alloc, &setup)?;
    let clients = read_clients(alloc, clients)?;
    let events = match read_schedule(alloc, &schedule) {
        Ok(events) => events,
        Err(error) => return Err(error),
    };
    match fault {
        None => Ok(Script {
            setup,
            clients,
            events,
        }),
        Some(fault) => Err(ReadError::Refused(Refusal::Syntax { line: fault.line })),
    }
}

/// The script that has these tokens.
fn read_tokens(alloc: Global, tokens: Tokens) -> Result<Script, ReadError>
    ensures { Reads (HasTokens tokens) (IsRefusedSplit (split_of tokens)) result }
{
    let split = split_sections(alloc, tokens)?;
    read_split(alloc, split)
}

/// The script that the bytes of a text are, by the grammar.
///
/// It is refused at the line of the first token that its first faulty part doesn't go on with.
pub fn read_script(alloc: Global, text: &[u8]) -> Result<Script, ReadError>
    ensures read { Reads (IsWritten text.now) (IsRefusedText text.now) result }
    ensures few { IfOk result (λ script. HasFew script.setup) }
{
    let tokens = scan(alloc, text)?;
    read_tokens(alloc, tokens)
}
