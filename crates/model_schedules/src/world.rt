//! Two clients over two plain repositories, and one more that looks at the end.

ghost use Rattle.std.specs.Prelude.{◌<◌};

use crate::deeds::{Deed, put_text};
use class_defs::{Declarations, Object, Plain, Schema, Schemas, UpgradedSchemas};
use front_end::{FrontEnd, Items, Opened};
use model_reading::Opening;
use model_repository::{Left, PlainPort, Reader, Site};
use script_check::{opened_store, schema_of};
use script_parse::{ClientItems, Script, read_script};
use std::alloc::Global;
use std::mem;
use thor_value::{NoMemory, Obj, Oref, Writes, both};

/// How many repositories there are.
pub(crate) const REPOS: u8 = 2;

/// How many times an item is tried.
const TRIES: u32 = 4;

/// How many pages a client holds between tries, of the two that there are: the first one has to fetch pages again.
fn cache(client: u8) -> u32
    ensures { 0 < result }
{
    if client == 1 { 1 } else { 2 }
}

const SETUP: &str = "setup
free class Box {
    int n;
    method int get() { return this.n; }
    method int add(int k) { this.n = this.n + k; return this.n; }
}
root a = new Box() at 0;
root b = new Box() at 1;
root c = new Box() at 0;
";

/// The clients, and what they call.
#[derive(Drop)]
pub(crate) struct World {
    pub clients: Vec<FrontEnd>,
    pub opened: Opened,
    pub port: PlainPort<Reader>,
}

/// The script: these deeds of each client.
fn text_of(alloc: Global, deeds: &[Vec<Deed>]) -> Result<String, NoMemory> {
    let mut text = String::new(alloc);
    text.push_str(SETUP)?;
    let mut number = 1u8;
    for items in deeds {
        text.push_str("client ")?;
        text.push((b'0' + number % 10) as char)?;
        text.push('\n')?;
        number = number.wrapping_add(1);
        for deed in items.as_slice() {
            put_text(&mut text, *deed)?;
        }
    }
    Ok(text)
}

/// The schema of a setup of few classes and roots.
fn schema_in(alloc: Global, setup: &Option<Declarations>) -> Result<Schema, NoMemory> {
    match setup {
        Some(setup) => {
            if setup.roots.len() > 256 || setup.classes.len() > 256 {
                return Err(NoMemory);
            }
            schema_of(alloc, setup)
        }
        None => Err(NoMemory),
    }
}

/// The schema with which the store is opened, and the items of the clients.
fn read(alloc: Global, text: &str) -> Result<(Schema, Vec<Items>), NoMemory> {
    match read_script(alloc, text.as_bytes()) {
        Ok(script) => take(alloc, script),
        Err(_) => Err(NoMemory),
    }
}

fn take(alloc: Global, script: Script) -> Result<(Schema, Vec<Items>), NoMemory> {
    let mut script = script;
    let clients = mem::replace(&mut script.clients, ClientItems::new(alloc));
    let (clients, schema) = both(clients, schema_in(alloc, &script.setup))?;
    Ok((schema, clients.into_vec()))
}

/// What the repositories begin with, by the objects of the roots.
fn openings_of(alloc: Global, objects: Vec<(Oref, Object)>) -> Result<Vec<Opening>, NoMemory> {
    let mut openings = Vec::new(alloc);
    for repo in 0..REPOS {
        openings.push(Opening {
            repo,
            repos: REPOS,
            limit: 65_536,
            objects: Writes::new(alloc),
            next_page: 1,
        })?;
    }
    for (oref, object) in objects {
        put_object(&mut openings, oref, object)?;
    }
    Ok(openings)
}

/// Puts a root's object to those of its repository.
fn put_object(openings: &mut Vec<Opening>, oref: Oref, object: Object) -> Result<(), NoMemory> {
    let Object { class, fields } = object;
    match openings.get_mut(usize::from(oref.repo)) {
        Some(opening) => opening.objects.push((
            oref,
            Obj {
                class,
                ver: 0,
                fields,
            },
        )),
        None => Err(NoMemory),
    }
}

/// The objects of the roots, as they begin.
fn objects_of(alloc: Global, schema: &Schema) -> Result<Vec<(Oref, Object)>, NoMemory> {
    if schema.classes.len() > 256 {
        return Err(NoMemory);
    }
    let Plain { objects, roots, .. } = opened_store(alloc, schema)?;
    drop(roots);
    Ok(objects.into_pairs(alloc)?.into_vec())
}

/// Repositories in which nothing has happened but that they were opened.
fn open_sites(alloc: Global, reader: &Reader) -> Result<Vec<Site>, NoMemory> {
    let mut sites = Vec::new(alloc);
    for repo in 0..REPOS {
        let mut site = Site {
            items: Vec::new(alloc),
            left: Left::Down,
            stops: false,
        };
        site.restart(reader, repo, false)?;
        sites.push(site)?;
    }
    Ok(sites)
}

/// A client with its items.
fn client(alloc: Global, number: u8, items: Items) -> Result<FrontEnd, NoMemory> {
    if items.len() > 1_000 {
        return Err(NoMemory);
    }
    FrontEnd::new(alloc, number, items, TRIES, cache(number))
}

fn clients_of(alloc: Global, items: Vec<Items>) -> Result<Vec<FrontEnd>, NoMemory> {
    let mut clients = Vec::new(alloc);
    let mut number = 0u8;
    for items in items {
        number = number.wrapping_add(1);
        clients.push(client(alloc, number, items)?)?;
    }
    Ok(clients)
}

fn port_over(alloc: Global, schema: &Schema) -> Result<PlainPort<Reader>, NoMemory> {
    let reader = Reader {
        alloc,
        openings: openings_of(alloc, objects_of(alloc, schema)?)?,
    };
    let sites = open_sites(alloc, &reader)?;
    Ok(PlainPort {
        reader,
        client: 1,
        sites,
    })
}

/// Clients with these deeds, over repositories in which nothing has happened.
pub(crate) fn begin(alloc: Global, deeds: &[Vec<Deed>]) -> Result<World, NoMemory> {
    let text = text_of(alloc, deeds)?;
    let (schema, items) = read(alloc, text.as_str())?;
    let (schema, clients) = both(schema, clients_of(alloc, items))?;
    let port = port_over(alloc, &schema);
    let ((schema, clients), port) = both((schema, clients), port)?;
    let schemas = Schemas {
        first: schema,
        upgraded: UpgradedSchemas::new(alloc),
    };
    let opened = Opened::new(alloc, REPOS, 0, schemas);
    let ((clients, port), opened) = both((clients, port), opened)?;
    Ok(World {
        clients,
        opened,
        port,
    })
}
