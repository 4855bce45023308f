//! Modes of ECMA-48.

/// A mode of ECMA-48 that `CSI h` sets and `CSI l` resets, by the abbreviation of its name in the
/// manuals, and if it has none by a name that is ours. [`number`](Mode::number),
/// [`name`](Mode::name) and [`words`](Mode::words) say the rest; the whole table is in
/// docs/FUNCTIONS.md.
#[derive(Clone, Copy, PartialEq, Eq)]
pub enum Mode {
    GATM,
    KAM,
    CRM,
    IRM,
    SRTM,
    ERM,
    VEM,
    BDSM,
    DCSM,
    HEM,
    PUM,
    SRM,
    FEAM,
    FETM,
    MATM,
    TTM,
    SATM,
    TSM,
    EBM,
    LNM,
    GRCM,
    ZDM,
    WYSTCURM,
    WYULCURM,
}
