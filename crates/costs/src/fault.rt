// Why a cost policy refuses.

/// The refusals of this layer.
#[derive(Clone, Copy, Debug, PartialEq, Eq)]
pub enum CostFault {
    /// A write names more sectors than a record has.
    SizeTooLarge(u8),
    /// The figures of a policy are outside their range.
    FiguresOutOfRange,
}
