// The public numbers of a layer as the calls take them, with a bias and without.
ghost use Rattle.std.specs.Prelude.{◌≡◌};
ghost use Rattle.ticket.specs.Rules.{numbered, plain, with_bias};

use crate::Setting;

// The public parameters of a layer, handed in by the buyer. A is rows by inner, B is inner by columns.
#[repr(C)]
#[derive(Clone, Copy)]
pub struct PlainSetting {
    pub rows: u32,
    pub inner: u32,
    pub columns: u32,
    // challenge vectors
    pub vectors: u32,
    // what the sums are divided by
    pub scale: u32,
    // the largest absolute value of an entry of A or B
    pub bound: u32,
    // the bits of a shifted quotient
    pub width: u32,
    // what is added to a sum before it is divided
    pub rounding: u32,
}

// The same of a layer with a bias.
#[repr(C)]
#[derive(Clone, Copy)]
pub struct BiasSetting {
    pub setting: PlainSetting,
    // the largest absolute value of a bias entry
    pub bias: u32,
}

impl PlainSetting {
    // The setting with or without a bias, whose bound it is.
    pub fn numbered(self, bias: Option<u32>) -> Setting
        ensures { result ≡ numbered self bias }
    {
        Setting {
            rows: self.rows,
            inner: self.inner,
            columns: self.columns,
            vectors: self.vectors,
            scale: self.scale,
            bound: self.bound,
            width: self.width,
            rounding: self.rounding,
            bias,
        }
    }
}

// The setting without a bias.
impl From<PlainSetting> for Setting {
    ghost from_gives = { λ public setting. setting ≡ plain public };

    fn from(public: PlainSetting) -> Setting {
        public.numbered(None)
    }
}

// The setting with a bias.
impl From<BiasSetting> for Setting {
    ghost from_gives = { λ public setting. setting ≡ with_bias public.setting public.bias };

    fn from(public: BiasSetting) -> Setting {
        public.setting.numbered(Some(public.bias))
    }
}
