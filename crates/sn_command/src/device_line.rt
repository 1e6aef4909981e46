// The command lines of a device.
ghost use Rattle.std.specs.Prelude.{◌≡◌, ◌≤◌, ℕ, List, codes, IfSome, IfNone};
ghost use Rattle.sn_command.specs.Commands.{device_line, task_of};
ghost use Rattle.sn_command.specs.DeviceLines.{DeviceLine, GivesDeviceCost, GivesIdentifier, GivesServer, GivesTask, GivesUuid, IsDeviceLine, Task, named_for};
ghost use Rattle.sn_command.specs.Given.{IsGivenBy};

use crate::cost::cost_option;
use crate::given::{Given, value};
use crate::server::is_server;
use sn_string::uuid_of;
use uuid::Uuid;

/// The least cost that a device takes.
pub const LEAST_COST: u32 = 110_000;

/// The greatest cost that a device takes.
const MOST_COST: u32 = 10_000_000;

/// A device's command on the store of this name.
#[derive(Drop)]
pub struct DeviceOptions<'a> {
    pub store: &'a str,
    pub command: DeviceCommand<'a>,
}

/// What a device is to do.
#[derive(Drop)]
pub enum DeviceCommand<'a> {
    Register {
        server: &'a str,
        identifier: &'a str,
        cost: u32,
    },
    SignIn {
        server: &'a str,
        identifier: &'a str,
    },
    /// With a title the input is the text of a note, else it is the content.
    Put {
        title: Option<&'a str>,
    },
    Edit {
        uuid: Uuid,
    },
    Delete {
        uuid: Uuid,
    },
    List,
    Content {
        uuid: Uuid,
    },
    Sync {
        server: &'a str,
    },
    ChangePassword {
        server: &'a str,
        cost: u32,
    },
}

/// A device's command that the words give.
pub fn device_options<'a>(given: &Given<'a>) -> Option<DeviceOptions<'a>>
    ensures some { IfSome result (λ options. (words : List (List ℕ)) → IsGivenBy words given.now → IsDeviceLine words (device_line options)) }
    ensures none { IfNone result ((words : List (List ℕ)) (line : DeviceLine) → IsGivenBy words given.now → ¬ (IsDeviceLine words line)) }
{
    let Some(store) = value(given, "store") else {
        return None;
    };
    match device_command(given) {
        Some(command) => Some(DeviceOptions { store, command }),
        None => None,
    }
}

fn device_command<'a>(given: &Given<'a>) -> Option<DeviceCommand<'a>>
    ensures some { IfSome result (λ command. (words : List (List ℕ)) → IsGivenBy words given.now → (named_for (task_of command) ≡ given.now.command.now) × GivesTask words (task_of command)) }
    ensures none { IfNone result ((words : List (List ℕ)) (task : Task) → IsGivenBy words given.now → named_for task ≡ given.now.command.now → ¬ (GivesTask words task)) }
{
    match given.command {
        "register" => register_command(given),
        "signin" => sign_in_command(given),
        "put" => Some(DeviceCommand::Put {
            title: value(given, "title"),
        }),
        "edit" => edit_command(given),
        "del" => delete_command(given),
        "list" => list_command(given),
        "sync" => sync_command(given),
        "passwd" => change_password_command(given),
        _ => None,
    }
}

fn register_command<'a>(given: &Given<'a>) -> Option<DeviceCommand<'a>>
    requires { given.now.command.now ≡ codes "register" }
    ensures some { IfSome result (λ command. (words : List (List ℕ)) → IsGivenBy words given.now → (named_for (task_of command) ≡ given.now.command.now) × GivesTask words (task_of command)) }
    ensures none { IfNone result ((words : List (List ℕ)) (task : Task) → IsGivenBy words given.now → named_for task ≡ given.now.command.now → ¬ (GivesTask words task)) }
{
    let server = server_option(given)?;
    let identifier = identifier_option(given)?;
    let cost = device_cost_option(given)?;
    Some(DeviceCommand::Register {
        server,
        identifier,
        cost,
    })
}

fn sign_in_command<'a>(given: &Given<'a>) -> Option<DeviceCommand<'a>>
    requires { given.now.command.now ≡ codes "signin" }
    ensures some { IfSome result (λ command. (words : List (List ℕ)) → IsGivenBy words given.now → (named_for (task_of command) ≡ given.now.command.now) × GivesTask words (task_of command)) }
    ensures none { IfNone result ((words : List (List ℕ)) (task : Task) → IsGivenBy words given.now → named_for task ≡ given.now.command.now → ¬ (GivesTask words task)) }
{
    let server = server_option(given)?;
    let identifier = identifier_option(given)?;
    Some(DeviceCommand::SignIn { server, identifier })
}

fn edit_command<'a>(given: &Given<'a>) -> Option<DeviceCommand<'a>>
    requires { given.now.command.now ≡ codes "edit" }
    ensures some { IfSome result (λ command. (words : List (List ℕ)) → IsGivenBy words given.now → (named_for (task_of command) ≡ given.now.command.now) × GivesTask words (task_of command)) }
    ensures none { IfNone result ((words : List (List ℕ)) (task : Task) → IsGivenBy words given.now → named_for task ≡ given.now.command.now → ¬ (GivesTask words task)) }
{
    let uuid = uuid_option(given)?;
    Some(DeviceCommand::Edit { uuid })
}

fn delete_command<'a>(given: &Given<'a>) -> Option<DeviceCommand<'a>>
    requires { given.now.command.now ≡ codes "del" }
    ensures some { IfSome result (λ command. (words : List (List ℕ)) → IsGivenBy words given.now → (named_for (task_of command) ≡ given.now.command.now) × GivesTask words (task_of command)) }
    ensures none { IfNone result ((words : List (List ℕ)) (task : Task) → IsGivenBy words given.now → named_for task ≡ given.now.command.now → ¬ (GivesTask words task)) }
{
    let uuid = uuid_option(given)?;
    Some(DeviceCommand::Delete { uuid })
}

fn list_command<'a>(given: &Given<'a>) -> Option<DeviceCommand<'a>>
    requires { given.now.command.now ≡ codes "list" }
    ensures some { IfSome result (λ command. (words : List (List ℕ)) → IsGivenBy words given.now → (named_for (task_of command) ≡ given.now.command.now) × GivesTask words (task_of command)) }
    ensures none { IfNone result ((words : List (List ℕ)) (task : Task) → IsGivenBy words given.now → named_for task ≡ given.now.command.now → ¬ (GivesTask words task)) }
{
    match value(given, "uuid") {
        None => Some(DeviceCommand::List),
        Some(text) => match uuid_of(text) {
            Some(uuid) => Some(DeviceCommand::Content { uuid }),
            None => None,
        },
    }
}

fn sync_command<'a>(given: &Given<'a>) -> Option<DeviceCommand<'a>>
    requires { given.now.command.now ≡ codes "sync" }
    ensures some { IfSome result (λ command. (words : List (List ℕ)) → IsGivenBy words given.now → (named_for (task_of command) ≡ given.now.command.now) × GivesTask words (task_of command)) }
    ensures none { IfNone result ((words : List (List ℕ)) (task : Task) → IsGivenBy words given.now → named_for task ≡ given.now.command.now → ¬ (GivesTask words task)) }
{
    let server = server_option(given)?;
    Some(DeviceCommand::Sync { server })
}

fn change_password_command<'a>(given: &Given<'a>) -> Option<DeviceCommand<'a>>
    requires { given.now.command.now ≡ codes "passwd" }
    ensures some { IfSome result (λ command. (words : List (List ℕ)) → IsGivenBy words given.now → (named_for (task_of command) ≡ given.now.command.now) × GivesTask words (task_of command)) }
    ensures none { IfNone result ((words : List (List ℕ)) (task : Task) → IsGivenBy words given.now → named_for task ≡ given.now.command.now → ¬ (GivesTask words task)) }
{
    let server = server_option(given)?;
    let cost = device_cost_option(given)?;
    Some(DeviceCommand::ChangePassword { server, cost })
}

fn server_option<'a>(given: &Given<'a>) -> Option<&'a str>
    ensures some { IfSome result (λ server. (words : List (List ℕ)) → IsGivenBy words given.now → GivesServer words server.now) }
    ensures none { IfNone result ((words : List (List ℕ)) (server : List ℕ) → IsGivenBy words given.now → ¬ (GivesServer words server)) }
{
    let server = value(given, "server")?;
    if is_server(server) {
        Some(server)
    } else {
        None
    }
}

fn identifier_option<'a>(given: &Given<'a>) -> Option<&'a str>
    ensures some { IfSome result (λ identifier. (words : List (List ℕ)) → IsGivenBy words given.now → GivesIdentifier words identifier.now) }
    ensures none { IfNone result ((words : List (List ℕ)) (identifier : List ℕ) → IsGivenBy words given.now → ¬ (GivesIdentifier words identifier)) }
{
    let identifier = value(given, "identifier")?;
    if !identifier.is_empty() && identifier.len() <= 254 {
        Some(identifier)
    } else {
        None
    }
}

fn uuid_option(given: &Given<'_>) -> Option<Uuid>
    ensures some { IfSome result (λ uuid. (words : List (List ℕ)) → IsGivenBy words given.now → GivesUuid words uuid) }
    ensures none { IfNone result ((words : List (List ℕ)) (uuid : List ℕ) → IsGivenBy words given.now → ¬ (GivesUuid words uuid)) }
{
    uuid_of(value(given, "uuid")?)
}

fn device_cost_option(given: &Given<'_>) -> Option<u32>
    ensures some { IfSome result (λ cost. (words : List (List ℕ)) → IsGivenBy words given.now → GivesDeviceCost words cost) }
    ensures none { IfNone result ((words : List (List ℕ)) (cost : ℕ) → IsGivenBy words given.now → ¬ (GivesDeviceCost words cost)) }
{
    let cost = cost_option(given)?;
    if LEAST_COST <= cost && cost <= MOST_COST {
        Some(cost)
    } else {
        None
    }
}
