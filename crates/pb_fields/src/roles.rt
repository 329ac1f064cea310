/// What a field is to its block; `Attr` where it is an attribute.
#[derive(Clone, Copy, Debug, PartialEq, Eq)]
pub enum Role {
    Param,
    Read,
    Write,
    Time,
    BitOut,
    PosOut,
    ExtOut,
    BitMux,
    PosMux,
    Table,
    Attr,
}
