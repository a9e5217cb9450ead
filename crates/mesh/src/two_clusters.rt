// A capture with one instance of feature 2, of die 3, and two clusters in it.
use stores::numbers::{store_u16, store_u64};
use uncore_writes::control_write;
use words::answers::Refusal;
use words::bytes::u64_at;

// The configuration space and the BAR capture that tBIR names; the other one is empty.
#[derive(Drop)]
pub(crate) struct TwoClusters {
    config: [u8; 4096],
    bar: [u8; 6176],
}

// Vendor word, and at 0x100 the VSEC structure: 1 entry of 2 words, tBIR 1, table at 2,000.
fn set_config(config: &mut [u8]) {
    store_u16(config, 0, 0x8086);
    store_u64(config, 0x100, 0x0101_0042_0001_000B);
    store_u64(config, 0x108, 0x0000_07D1_0201_0000);
}

// The entry: one instance of 20 words, 4 KiB from the table; its header with mask 0b11, its offsets, 2 and 6. Cluster 0 has 002's default in
// control. In cluster 1 every reserved bit of control and of the second advanced control is set, and the minimum, 50, is above the maximum, 10.
fn set_instance(bar: &mut [u8]) {
    store_u64(bar, 2000, 0x0001_0004_0014_0102);
    store_u64(bar, 6096, 0x0301);
    store_u64(bar, 6104, 0x0602);
    store_u64(bar, 6120, 0x7F01);
    store_u64(bar, 6152, 0xFFFF_FF80_E019_0AFC);
    store_u64(bar, 6168, 0xFFFF_FFFF_FFFF_0000);
}

impl TwoClusters {
    pub(crate) fn new() -> TwoClusters {
        let mut config = [0u8; 4096];
        let mut bar = [0u8; 6176];
        set_config(&mut config);
        set_instance(&mut bar);
        TwoClusters { config, bar }
    }

    // A write of a number to a field of register r of local cluster n.
    pub(crate) fn write(&mut self, n: u64, r: u64, which: u64, value: u64) -> Result<(), Refusal> {
        control_write::write(
            &self.config,
            0,
            &mut [],
            1,
            &mut self.bar,
            0,
            3,
            n,
            r,
            which,
            value,
        )
    }

    // Control of both clusters, and the second advanced control of cluster 1.
    pub(crate) fn control0(&self) -> u64 {
        u64_at(&self.bar, 6120)
    }

    pub(crate) fn control1(&self) -> u64 {
        u64_at(&self.bar, 6152)
    }

    pub(crate) fn second1(&self) -> u64 {
        u64_at(&self.bar, 6168)
    }
}
