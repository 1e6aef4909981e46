//! Requests.

ghost use Rattle.std.specs.Prelude.{◌≡◌};

use crate::item::Item;
use sn_string::{OwnedList, Params, Text};

/// Where a request goes: its method and its path.
#[derive(Clone, Copy, Debug, PartialEq, Eq)]
pub enum Route {
    /// `POST /auth`
    Register,
    /// `GET /auth/params`
    Params,
    /// `POST /auth/sign_in`
    SignIn,
    /// `POST /auth/change_pw`
    ChangePw,
    /// `POST /items/sync`
    Sync,
}

impl Route {
    ghost use Rattle.sn_sync.specs.Routes.{method_of, path_to};

    /// Its method.
    pub fn method(self) -> &'static str
        ensures { result.now ≡ method_of self }
    {
        match self {
            Route::Params => "GET",
            Route::Register | Route::SignIn | Route::ChangePw | Route::Sync => "POST",
        }
    }

    /// Its path.
    pub fn path(self) -> &'static str
        ensures { result.now ≡ path_to self }
    {
        match self {
            Route::Register => "/auth",
            Route::Params => "/auth/params",
            Route::SignIn => "/auth/sign_in",
            Route::ChangePw => "/auth/change_pw",
            Route::Sync => "/items/sync",
        }
    }
}

/// A request, with the session token that came with it. Of none the token is empty.
#[derive(Drop)]
pub enum Request {
    Register {
        params: Params,
        pw: [u8; 32],
    },
    Params {
        identifier: Text,
    },
    SignIn {
        identifier: Text,
        pw: [u8; 32],
    },
    ChangePw {
        token: Text,
        current: [u8; 32],
        pw: [u8; 32],
        cost: u32,
        nonce: Text,
    },
    /// The items in the order in which they are to be looked at, and how many the answer may give, 1 to 500.
    Sync {
        token: Text,
        items: OwnedList<Item>,
        limit: u32,
        sync_token: Option<Text>,
        cursor_token: Option<Text>,
    },
}
