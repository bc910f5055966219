ghost use Rattle.std.specs.Prelude.{◌≡◌, ◌≤◌, ◌++◌, All, length, take, OnOk, OnErr};
ghost use Rattle.thor_value.specs.Spelling.{NameFits};
ghost use Rattle.object_codec.specs.Spelling.{most_fields, obj_bytes};

use byteorder::{BigEndian, ByteOrder};
use thor_value::{NoMemory, Obj, Text, put_value};

/// Puts the one spelling of an object behind the last byte. After `NoMemory` the text is as it was.
pub fn put_obj(o: &Obj, out: &mut Text) -> Result<(), NoMemory>
    requires count { length o.now.fields ≤ most_fields }
    requires names { All NameFits o.now.fields }
    ensures ok { OnOk result (out.new ≡ out.old ++ obj_bytes o.now) }
    ensures err { OnErr result (out.new ≡ out.old) }
{
    let before = out.len();
    let put = put_parts(o, out);
    if put.is_err() {
        out.truncate(before);
    }
    put
}

/// Puts the parts of an object one after the other. After `NoMemory` some of them may stand there.
fn put_parts(o: &Obj, out: &mut Text) -> Result<(), NoMemory>
    requires count { length o.now.fields ≤ most_fields }
    requires names { All NameFits o.now.fields }
    ensures ok { OnOk result (out.new ≡ out.old ++ obj_bytes o.now) }
    ensures err { OnErr result (take (length out.old) out.new ≡ out.old) }
{
    let mut head = [0u8; 7];
    BigEndian::write_u16(&mut head, o.class);
    BigEndian::write_u32(&mut head[2..], o.ver);
    head[6] = o.fields.len() as u8;
    out.extend_from_slice(&head)?;
    for field in o.fields.as_slice() {
        put_value(*field, out)?;
    }
    Ok(())
}
