use pb_buses::Edge;

/// What commands set of a PCAP.
#[derive(Clone, Copy, Debug, PartialEq, Eq)]
pub struct PcapSettings {
    /// At which changes of TRIG a record is due.
    pub trig_edge: Edge,
}
