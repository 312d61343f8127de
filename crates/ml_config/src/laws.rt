// What holds of all configurations and keys: no bytes spell two of them.
ghost use Rattle.std.specs.Prelude.{◌≡◌, ℕ, Option, Some};
ghost use Rattle.ml_base.specs.Bytes.{Text};
ghost use Rattle.ml_config.specs.Configuration.{IsConfig, config_of};
ghost use Rattle.ml_config.specs.ConfigFile.{IsConfigFile, Spells};
ghost use Rattle.ml_config.specs.KeyFile.{IsKeyFile};
ghost use Rattle.ml_config.specs.declared.key_file.Keys.{Keys};
ghost use Rattle.ml_config.specs.declared.configuration.Config.{Config};
ghost use Rattle.ml_config.specs.declared.configuration.Flags.{Flags};

/// Bytes spell at most one configuration, and a file holds at most one. What values make is a configuration in its
/// ranges, and the values of such a configuration make it again.
pub fn law_configurations()
    ensures one { (bytes : Text) (c d : Config) → Spells bytes c → Spells bytes d → c ≡ d }
    ensures file { (file : Option Text) (c d : Config) → IsConfigFile file c → IsConfigFile file d → c ≡ d }
    ensures made { (flags : Flags) (local host owner prefix : Text) (max : ℕ) (c : Config) → config_of flags local host owner prefix max ≡ Some c → IsConfig c }
    ensures again { (c : Config) → IsConfig c → config_of c.flags c.local c.host c.owner c.prefix c.max ≡ Some c }
{}

/// A file holds at most one pair of keys.
pub fn law_keys()
    ensures { (file : Option Text) (a b : Keys) → IsKeyFile file a → IsKeyFile file b → a ≡ b }
{}
