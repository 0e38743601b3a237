// Answers: what a ledger or a run says of an order.
ghost use Rattle.std.specs.Prelude.{◌≡◌};
ghost use Rattle.orders.specs.Codes.{LayerOf};
ghost use Rattle.orders.specs.Layout.{layer_number};

/// The layer of the ledger that refuses an order.
#[derive(Clone, Copy, PartialEq, Eq, Debug)]
pub enum Layer {
    Script = 1,
    Transactions = 2,
    Tree = 3,
    Allocator = 4,
}

/// The layer's number in an answer.
impl From<Layer> for u8 {
    ghost from_gives = { λ layer number. number ≡ layer_number layer };

    fn from(layer: Layer) -> u8 {
        layer as u8
    }
}

/// A number that no layer has.
#[derive(Clone, Copy, PartialEq, Eq, Debug)]
pub struct NoSuchLayer(pub u8);

impl TryFrom<u8> for Layer {
    type Error = NoSuchLayer;

    ghost try_from_gives = { LayerOf };

    fn try_from(number: u8) -> Result<Layer, NoSuchLayer> {
        match number {
            1 => Ok(Layer::Script),
            2 => Ok(Layer::Transactions),
            3 => Ok(Layer::Tree),
            4 => Ok(Layer::Allocator),
            _ => Err(NoSuchLayer(number)),
        }
    }
}

/// Why an order was refused: the number of the refusal, the layer that refused, the item that is
/// meant (a dataset, a transaction, a record, ..) and an amount.
// The faults themselves are enums of the layers above. Here they are the numbers of the answer's bytes, in one type for all layers.
#[derive(Clone, Copy, PartialEq, Eq, Debug)]
pub struct Refusal {
    pub number: u8,
    pub layer: Layer,
    pub item: u8,
    pub amount: u16,
}

/// The figures of a dataset.
#[derive(Clone, Copy, PartialEq, Eq, Debug)]
pub struct Figures {
    pub name: [u8; 8],
    /// What counts against the dataset's limit: its own units and the weights of its children.
    pub charge: u16,
    /// The units of its records.
    pub record_units: u16,
    /// The units that its records lost and the allocator has not got back yet.
    pub deferred_units: u16,
    /// The units granted to its assigned transactions and not spent.
    pub unspent_grants: u16,
}

/// What an order, or a whole run, is answered.
#[derive(Clone, Copy, PartialEq, Eq, Debug)]
pub enum Answer {
    /// The order was accepted, with its value.
    Done { value: u16 },
    /// The order was refused, and changed nothing.
    Refused(Refusal),
    /// The figures that were asked for.
    Told(Figures),
    /// The run stopped: its number, 0 at the script's end, and the place.
    // Numbers, since these are the answer's bytes: the runner, which stops, has a Result of a fault.
    Stopped { number: u8, place: u16 },
}
