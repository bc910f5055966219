ghost use Rattle.std.specs.Prelude.{◌≡◌, ◌<◌, ◌≤◌, ℕ, ◌++◌, ◌+◌, ◌*◌, List, length, All, Ok, Err, OnOk, OnErr, IfOk, IsErrOf, IsOk, slice_get};
ghost use Rattle.std.specs.Option.{option_copied, option_map};
ghost use Rattle.thor_value.specs.FiniteMap.{empty, get, insert, len as object_count};
ghost use Rattle.page_format.specs.Pages.{Contents, PageFits, PageFitsIn, ObjectsFit, Passes, Parsed, page_bytes, page_bytes_in, page_size, taken};
ghost use Rattle.page_format.specs.declared.format.StoreFormat.TheVariants.{One as FormatOne};

use crate::fault::{Damaged, Full};
use crate::format::StoreFormat;
use crate::splice::{put_over, spelled, spliced};
use crate::walk::{find, nth, parts_of};
use std::alloc::Global;
use std::marker::Model;
use thor_value::{NoMemory, Sequence, Text, TryCopy};

/// A page: its number, and the bytes of the object in each slot that has one. What the bytes of an
/// object mean is told by no page.
#[derive(Debug, Drop)]
pub struct Page {
    number: u32,
    count: u8,
    entries: Vec<u8>,
}

impl Model for Page {
    ghost use Rattle.page_format.specs.Pages.{Contents};
    ghost use Rattle.page_format.specs.Walking.{AreStored, pairs_of};

    ghost Value = { Contents };

    ghost view = { λ p. record { number = p.number; objects = record { pairs = pairs_of p.count p.entries.items } } };

    ghost invariant = { λ p. AreStored p.count p.entries.items };
}

impl Page {
    /// A page that has no object. It takes no memory.
    pub fn empty(alloc: Global, page: u32) -> Result<Page, NoMemory>
        ensures made { IfOk result (λ made. made ≡ record { number = page; objects = empty }) }
        ensures ok { IsOk result }
    {
        Ok(Page {
            number: page,
            count: 0,
            entries: Vec::new(alloc),
        })
    }

    /// The page that the bytes spell, all of the bytes. They are 16,384 where they are a page.
    pub fn parse(alloc: Global, bytes: &[u8]) -> Result<Page, Damaged>
        // What is read is a page, spelled so.
        ensures found { IfOk result (λ page. PageFits page × (bytes.now ≡ page_bytes page)) }
        // What is spelled so is read, unless memory runs out.
        ensures only { (c : Contents) → PageFits c → bytes.now ≡ page_bytes c → Parsed result c }
        // NoPage comes only where the bytes spell no page.
        ensures damaged { IsErrOf result Damaged.NoPage → (c : Contents) → PageFits c → bytes.now ≡ page_bytes c → ⊥ }
    {
        Page::parse_in(alloc, StoreFormat::Two, bytes)
    }

    /// The page that the bytes spell in the older format, all of the bytes. They are 4,096 where they are such a page.
    pub fn parse_old(alloc: Global, bytes: &[u8]) -> Result<Page, Damaged>
        // What is read is a page of that format, spelled so.
        ensures found { IfOk result (λ page. PageFitsIn FormatOne page × (bytes.now ≡ page_bytes_in FormatOne page)) }
        // What is spelled so is read, unless memory runs out.
        ensures only { (c : Contents) → PageFitsIn FormatOne c → bytes.now ≡ page_bytes_in FormatOne c → Parsed result c }
        // NoPage comes only where the bytes spell no page of that format.
        ensures damaged { IsErrOf result Damaged.NoPage → (c : Contents) → PageFitsIn FormatOne c → bytes.now ≡ page_bytes_in FormatOne c → ⊥ }
    {
        Page::parse_in(alloc, StoreFormat::One, bytes)
    }

    /// The page that the bytes spell in a format, all of the bytes.
    pub fn parse_in(alloc: Global, format: StoreFormat, bytes: &[u8]) -> Result<Page, Damaged>
        ensures found { IfOk result (λ page. PageFitsIn format page × (bytes.now ≡ page_bytes_in format page)) }
        ensures only { (c : Contents) → PageFitsIn format c → bytes.now ≡ page_bytes_in format c → Parsed result c }
        ensures damaged { IsErrOf result Damaged.NoPage → (c : Contents) → PageFitsIn format c → bytes.now ≡ page_bytes_in format c → ⊥ }
    {
        match parts_of(format, bytes) {
            None => Err(Damaged::NoPage),
            Some(((number, count), entries)) => match Vec::from_slice(alloc, entries) {
                Ok(entries) => Ok(Page {
                    number,
                    count,
                    entries,
                }),
                Err(_) => Err(Damaged::NoMemory),
            },
        }
    }

    /// The number of the page in its repository.
    pub fn number(&self) -> u32
        ensures { result ≡ self.now.number }
    {
        self.number
    }

    /// How many slots have an object.
    pub fn len(&self) -> u8
        ensures { result ≡ object_count self.now.objects }
    {
        self.count
    }

    /// The slot at a rank counted from 0 among those that have an object, slots rising, with its bytes.
    pub fn nth(&self, rank: u8) -> Option<(u8, &[u8])>
        ensures { option_map (λ x. (x.0, x.1.now)) result ≡ slice_get self.now.objects.pairs rank }
    {
        nth(self.entries.as_slice(), self.count, rank)
    }

    /// The bytes of the object in a slot, where it has one.
    pub fn get(&self, slot: u8) -> Option<&[u8]>
        ensures { option_copied result ≡ get self.now.objects slot }
    {
        find(self.entries.as_slice(), self.count, slot)
    }

    /// Puts bytes into a slot, in the place of those before. After an error the page is as it was.
    pub fn put(&mut self, slot: u8, bytes: &[u8]) -> Result<(), Full>
        ensures ok { OnOk result (self.new ≡ record self.old { objects = insert self.old.objects slot bytes.now }) }
        // NoRoom comes exactly where the whole would pass the end or the count.
        ensures fits { OnOk result (ObjectsFit self.new.objects.pairs) }
        ensures full { IsErrOf result Full.NoRoom → Passes (insert self.old.objects slot bytes.now).pairs }
        ensures err { OnErr result (self.new ≡ self.old) }
    {
        if put_over(self.entries.as_mut_slice(), self.count, slot, bytes) {
            return Ok(());
        }
        let alloc = *self.entries.allocator();
        let (entries, count) = spliced(alloc, self.entries.as_slice(), self.count, slot, bytes)?;
        self.entries = entries;
        self.count = count;
        Ok(())
    }

    /// The objects fit a page.
    pub fn within(&self)
        ensures { ObjectsFit self.now.objects.pairs }
    {
        let _count = self.entries.len();
    }

    /// The one spelling of the page.
    pub fn spell(&self) -> Result<Text, NoMemory>
        ensures text { IfOk result (λ text. text ≡ page_bytes self.now) }
        ensures size { IfOk result (λ text. length text ≡ page_size) }
        ensures fits { PageFits self.now }
    {
        let alloc = *self.entries.allocator();
        let bytes = spelled(alloc, self.number, self.count, self.entries.as_slice())?;
        Ok(Sequence::from_vec(bytes))
    }
}

impl TryCopy for Page {
    fn copy(&self) -> Result<Page, NoMemory> {
        let alloc = *self.entries.allocator();
        Ok(Page {
            number: self.number,
            count: self.count,
            entries: Vec::from_slice(alloc, self.entries.as_slice())?,
        })
    }
}

/// Each page has one spelling: two pages that are spelled alike are one.
pub fn pages_are_apart()
    ensures { (c d : Contents) → PageFits c → PageFits d → page_bytes c ≡ page_bytes d → c ≡ d }
{}

/// Twelve objects of the greatest size, 1,095 bytes, always fit in a page.
pub fn twelve_objects_fit()
    ensures { (c : Contents) → object_count c.objects ≤ 12 → All (λ q. length q.1 ≤ 1095) c.objects.pairs → taken c ≤ page_size }
{}
