//! Where the player's image stands.

ghost use Rattle.std.specs.Prelude.{◌≡◌, ◌↔◌, IfOk, IsErrOf};
ghost use Rattle.packed_form.specs.ImagePlaces.{IsAddress, IsZeroPage};

/// Why an image may not stand there.
#[derive(Clone, Copy, Debug, PartialEq, Eq)]
pub enum PlaceFault {
    /// The address is no multiple of 256 from `$0800` to `$CF00`.
    BadAddress,
    /// The zero page byte isn't `$02` to `$FE`.
    BadZeroPage,
}

/// Where the player's image stands: its first byte, at the beginning of a page, and its two bytes of page 0.
#[derive(Clone, Copy, Debug, PartialEq, Eq)]
pub struct Place {
    /// The address of the image's first byte: a multiple of 256 from `$0800` to `$CF00`.
    pub address: u16,
    /// The first of the two bytes of page 0 that the player uses: `$02` to `$FE`.
    pub zero_page: u8,
    /// The image may stand there.
    pub ghost allowed_address: { IsAddress address },
    /// The player may use these bytes.
    pub ghost allowed_zero_page: { IsZeroPage zero_page },
}

impl Place {
    /// This place.
    ///
    /// # Errors
    ///
    /// `BadAddress` where the address isn't allowed, else `BadZeroPage` where the zero page byte isn't.
    pub fn new(address: u16, zero_page: u8) -> Result<Place, PlaceFault>
        ensures kept { IfOk result (λ place. (place.address ≡ address) × (place.zero_page ≡
            zero_page)) }
        ensures bad_address { IsErrOf result PlaceFault.BadAddress ↔ ¬ IsAddress address }
        ensures bad_zero_page { IsErrOf result PlaceFault.BadZeroPage
            ↔ (IsAddress address × ¬ IsZeroPage zero_page) }
    {
        if address % 256 != 0 || address < 0x0800 || address > 0xcf00 {
            return Err(PlaceFault::BadAddress);
        }
        if zero_page < 0x02 || zero_page > 0xfe {
            return Err(PlaceFault::BadZeroPage);
        }
        Ok(Place { address, zero_page })
    }
}
