ghost use Rattle.std.specs.Prelude.{◌≡◌, ◌<◌, ◌≤◌, List, [], ◌∷◌, ◌++◌, length, All, slice_index_or};
ghost use Rattle.pb_pcap.specs.Fields.{IsField, IsLayout, size_of};
ghost use Rattle.pb_pcap.specs.declared.fields.Field.{Field as FieldValue};

use crate::fields::{Choice, Field, Units};
use pb_words::Decimal9;
use std::marker::Model;

/// So many fields a layout can have: twelve positions have a name.
const FIELDS: usize = 20;

/// Which fields a record holds, and in which order. It is held in place. A clause sees its fields.
#[derive(Debug, Drop)]
pub struct Layout {
    fields: [Field; 20],
    len: usize,
    size: usize,
}

impl Model for Layout {
    ghost use Rattle.std.specs.Prelude.{◌≡◌, ◌≤◌, List, length, take};
    ghost use Rattle.pb_pcap.specs.declared.fields.Field.{Field};
    ghost use Rattle.pb_pcap.specs.Fields.{IsLayout, size_of};

    ghost Value = { List Field };

    ghost view = { λ l. take l.len l.fields };

    ghost invariant = { λ l. (length l.fields ≡ 20) × (l.len ≤ 20) × (l.size ≡ size_of (take l.len l.fields)) × IsLayout (take l.len l.fields) };
}

impl Layout {
    /// A layout without fields.
    pub fn empty() -> Layout
        ensures { result ≡ [] }
    {
        let none = Decimal9 { billionths: 0 };
        let unused = Field {
            entry: 0,
            choice: Choice::No,
            scale: none,
            offset: none,
            units: Units::new(&[]),
        };
        Layout {
            fields: [unused; FIELDS],
            len: 0,
            size: 0,
        }
    }

    /// The same layout once more.
    pub fn copy(&self) -> Layout
        ensures { result ≡ self.now }
    {
        Layout {
            fields: self.fields,
            len: self.len,
            size: self.size,
        }
    }

    /// Adds a field at the end. Its entry is above those of the fields before. Of entries 32 to 39 scale,
    /// offset and units mean nothing.
    pub fn add(
        &mut self,
        entry: u8,
        choice: Choice,
        scale: Decimal9,
        offset: Decimal9,
        units: Units,
    )
        requires field { IsField (record { entry = entry; choice = choice; scale = scale; offset = offset; units = units }) }
        requires above { All (λ field. field.entry < entry) self.old }
        ensures { self.new ≡ self.old ++ record { entry = entry; choice = choice; scale = scale; offset = offset; units = units } ∷ [] }
    {
        let field = Field {
            entry,
            choice,
            scale,
            offset,
            units,
        };
        self.size += field.size();
        self.fields[self.len] = field;
        self.len += 1;
    }

    /// How many bytes a record has.
    pub fn size(&self) -> usize
        ensures value { result ≡ size_of self.now }
        ensures limit { result ≤ 240 }
    {
        self.size
    }

    /// How many fields there are.
    pub fn len(&self) -> usize
        ensures value { result ≡ length self.now }
        ensures limit { result ≤ 20 }
    {
        self.len
    }

    /// The field at a place.
    pub fn field(&self, i: usize) -> Field
        requires { i < length self.now }
        ensures value { (other : FieldValue) → result ≡ slice_index_or self.now i other }
        ensures is_field { IsField result }
    {
        let fields = self.fields();
        fields[i]
    }

    /// The fields.
    pub(crate) fn fields(&self) -> &[Field]
        ensures value { result.now ≡ self.now }
        ensures are_fields { IsLayout result.now }
        ensures limit { length result.now ≤ 20 }
    {
        &self.fields[..self.len]
    }
}
