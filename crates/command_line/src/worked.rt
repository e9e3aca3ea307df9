//! Computed examples, for the proof alone: each function has an empty body, and the check computes its contract.
ghost use Rattle.std.specs.Prelude.{◌≡◌, [], ◌∷◌, Some, None, codes, true, false};
ghost use Rattle.farm_model.specs.Words.{words};
ghost use Rattle.clap.specs.declared.error.kind.ErrorKind.TheVariants.{DisplayHelp, DisplayVersion, InvalidSubcommand, UnknownArgument};
ghost use Rattle.command_line.specs.Addresses.{address_of, ipv4, ipv6, loopback};
ghost use Rattle.command_line.specs.CommandLine.{command_of, Judge, Script, Store, Make, Serve, Host};
ghost use Rattle.command_line.specs.Helping.{answers_to};
ghost use Rattle.command_line.specs.Ranges.{unlimited};

/// `farm judge` at words.
pub fn worked_judgings()
    ensures spaced { command_of (words (codes "farm judge c --hosts 1")) ≡ Some (Judge (codes "c") 1 false) }
    ensures joined { command_of (words (codes "farm judge --hosts=1 c")) ≡ Some (Judge (codes "c") 1 false) }
    ensures journal { command_of (words (codes "farm judge --journal c --hosts 0")) ≡ Some (Judge (codes "c") 0 true) }
    ensures most_hosts { command_of (words (codes "farm judge c --hosts 16")) ≡ Some (Judge (codes "c") 16 false) }
    ensures too_many_hosts { command_of (words (codes "farm judge c --hosts 17")) ≡ None }
    ensures no_hosts { command_of (words (codes "farm judge c")) ≡ None }
    ensures no_folder { command_of (words (codes "farm judge --hosts 1")) ≡ None }
    ensures two_folders { command_of (words (codes "farm judge c d --hosts 1")) ≡ None }
    ensures twice { command_of (words (codes "farm judge c --hosts 1 --hosts 1")) ≡ None }
    ensures journal_twice { command_of (words (codes "farm judge c --hosts 1 --journal --journal")) ≡ None }
    ensures journal_of_a_value { command_of (words (codes "farm judge c --hosts 1 --journal=true")) ≡ None }
    ensures leading_zero { command_of (words (codes "farm judge c --hosts 01")) ≡ None }
    ensures sign { command_of (words (codes "farm judge c --hosts +1")) ≡ None }
    ensures no_value { command_of (words (codes "farm judge c --hosts")) ≡ None }
    ensures empty_value { command_of (words (codes "farm judge c --hosts=")) ≡ None }
    ensures value_with_dash { command_of (words (codes "farm judge c --hosts -1")) ≡ None }
    ensures joined_value_with_dash { command_of (words (codes "farm judge c --hosts=-1")) ≡ None }
{}

/// `farm script` at words.
pub fn worked_scripts()
    ensures plain { command_of (words (codes "farm script")) ≡ Some (Script None None) }
    ensures spaced { command_of (words (codes "farm script --config f")) ≡ Some (Script (Some (codes "f")) None) }
    ensures joined { command_of (words (codes "farm script --config=f")) ≡ Some (Script (Some (codes "f")) None) }
    ensures second_sign { command_of (words (codes "farm script --config=f=g")) ≡ Some (Script (Some (codes "f=g")) None) }
    ensures spaced_store { command_of (words (codes "farm script --store s")) ≡ Some (Script None (Some (codes "s"))) }
    ensures joined_store { command_of (words (codes "farm script --store=s")) ≡ Some (Script None (Some (codes "s"))) }
    ensures config_and_store { command_of (words (codes "farm script --config f --store s")) ≡ Some (Script (Some (codes "f")) (Some (codes "s"))) }
    ensures store_and_config { command_of (words (codes "farm script --store=s --config=f")) ≡ Some (Script (Some (codes "f")) (Some (codes "s"))) }
    ensures no_value { command_of (words (codes "farm script --config")) ≡ None }
    ensures empty_value { command_of (words (codes "farm script --config=")) ≡ None }
    ensures value_with_dash { command_of (words (codes "farm script --config -f")) ≡ None }
    ensures joined_value_with_dash { command_of (words (codes "farm script --config=-f")) ≡ None }
    ensures operand { command_of (words (codes "farm script x")) ≡ None }
    ensures other_option { command_of (words (codes "farm script --hosts 1")) ≡ None }
    ensures store_twice { command_of (words (codes "farm script --store s --store s")) ≡ None }
    ensures no_store { command_of (words (codes "farm script --store")) ≡ None }
    ensures empty_store { command_of (words (codes "farm script --store=")) ≡ None }
{}

/// `farm store` at words.
pub fn worked_stores()
    ensures plain { command_of (words (codes "farm store s")) ≡ Some (Store (codes "s")) }
    ensures no_file { command_of (words (codes "farm store")) ≡ None }
    ensures two_files { command_of (words (codes "farm store s t")) ≡ None }
    ensures option { command_of (words (codes "farm store s --config f")) ≡ None }
{}

/// `farm make` at words.
pub fn worked_makings()
    ensures least { command_of (words (codes "farm make 0 1 3")) ≡ Some (Make 0 (record { problems = 1; submissions = 3 })) }
    ensures most { command_of (words (codes "farm make 4294967295 50 2000")) ≡ Some (Make 4294967295 (record { problems = 50; submissions = 2000 })) }
    ensures no_problem { command_of (words (codes "farm make 0 0 3")) ≡ None }
    ensures too_many_problems { command_of (words (codes "farm make 0 51 3")) ≡ None }
    ensures no_submission { command_of (words (codes "farm make 0 1 0")) ≡ None }
    ensures too_many_submissions { command_of (words (codes "farm make 0 1 2001")) ≡ None }
    ensures too_great { command_of (words (codes "farm make 4294967296 1 3")) ≡ None }
    ensures two_numbers { command_of (words (codes "farm make 0 1")) ≡ None }
    ensures four_numbers { command_of (words (codes "farm make 0 1 3 1")) ≡ None }
{}

/// `farm serve` at words.
pub fn worked_servings()
    ensures least { command_of (words (codes "farm serve c --port 0 --lanes 1 --connections 1")) ≡ Some (Serve (codes "c") loopback 0 1 1 60 false) }
    ensures most { command_of (words (codes "farm serve --connections=100000 --until-input-ends --patience=3600 --lanes=16 --port=65535 c")) ≡ Some (Serve (codes "c") loopback 65535 16 100000 3600 true) }
    ensures least_patience { command_of (words (codes "farm serve c --port 0 --lanes 1 --connections 1 --patience 1")) ≡ Some (Serve (codes "c") loopback 0 1 1 1 false) }
    ensures too_great_port { command_of (words (codes "farm serve c --port 65536 --lanes 1 --connections 1")) ≡ None }
    ensures no_lane { command_of (words (codes "farm serve c --port 0 --lanes 0 --connections 1")) ≡ None }
    ensures too_many_lanes { command_of (words (codes "farm serve c --port 0 --lanes 17 --connections 1")) ≡ None }
    ensures no_connection { command_of (words (codes "farm serve c --port 0 --lanes 1 --connections 0")) ≡ None }
    ensures too_many_connections { command_of (words (codes "farm serve c --port 0 --lanes 1 --connections 100001")) ≡ None }
    ensures address { command_of (words (codes "farm serve c --port 0 --lanes 1 --connections 1 --address 0.0.0.0")) ≡ Some (Serve (codes "c") (ipv4 (0 ∷ 0 ∷ 0 ∷ 0 ∷ [])) 0 1 1 60 false) }
    ensures no_address { command_of (words (codes "farm serve c --port 0 --lanes 1 --connections 1 --address localhost")) ≡ None }
    ensures no_patience { command_of (words (codes "farm serve c --port 0 --lanes 1 --connections 1 --patience 0")) ≡ None }
    ensures too_much_patience { command_of (words (codes "farm serve c --port 0 --lanes 1 --connections 1 --patience 3601")) ≡ None }
    ensures flag_of_a_value { command_of (words (codes "farm serve c --port 0 --lanes 1 --connections 1 --until-input-ends=true")) ≡ None }
    ensures port_left_out { command_of (words (codes "farm serve c --lanes 1 --connections 1")) ≡ None }
    ensures lanes_left_out { command_of (words (codes "farm serve c --port 0 --connections 1")) ≡ None }
    ensures connections_left_out { command_of (words (codes "farm serve c --port 0 --lanes 1")) ≡ Some (Serve (codes "c") loopback 0 1 unlimited 60 false) }
    ensures connections_left_out_last { command_of (words (codes "farm serve --lanes=1 --port=0 --until-input-ends c")) ≡ Some (Serve (codes "c") loopback 0 1 4294967295 60 true) }
    ensures no_number_of_connections { command_of (words (codes "farm serve c --port 0 --lanes 1 --connections")) ≡ None }
    ensures connections { command_of (words (codes "farm serve c --port 0 --lanes 1 --connections 7")) ≡ Some (Serve (codes "c") loopback 0 1 7 60 false) }
    ensures folder_left_out { command_of (words (codes "farm serve --port 0 --lanes 1 --connections 1")) ≡ None }
{}

/// Addresses, and texts that write none.
pub fn worked_addresses()
    ensures dotted { address_of (codes "127.0.0.1") ≡ Some (ipv4 (127 ∷ 0 ∷ 0 ∷ 1 ∷ [])) }
    ensures greatest { address_of (codes "255.255.255.255") ≡ Some (ipv4 (255 ∷ 255 ∷ 255 ∷ 255 ∷ [])) }
    ensures great_number { address_of (codes "256.0.0.0") ≡ None }
    ensures leading_zero { address_of (codes "127.0.0.01") ≡ None }
    ensures three_numbers { address_of (codes "127.0.1") ≡ None }
    ensures name { address_of (codes "localhost") ≡ None }
    ensures with_port { address_of (codes "127.0.0.1:80") ≡ None }
    ensures elided { address_of (codes "::1") ≡ Some (ipv6 (0 ∷ 0 ∷ 0 ∷ 0 ∷ 0 ∷ 0 ∷ 0 ∷ 1 ∷ [])) }
    ensures any { address_of (codes "::") ≡ Some (ipv6 (0 ∷ 0 ∷ 0 ∷ 0 ∷ 0 ∷ 0 ∷ 0 ∷ 0 ∷ [])) }
    ensures all_groups { address_of (codes "2001:db8:0:0:0:FF00:42:8329") ≡ Some (ipv6 (8193 ∷ 3512 ∷ 0 ∷ 0 ∷ 0 ∷ 65280 ∷ 66 ∷ 33577 ∷ [])) }
    ensures with_dotted { address_of (codes "::ffff:1.2.3.4") ≡ Some (ipv6 (0 ∷ 0 ∷ 0 ∷ 0 ∷ 0 ∷ 65535 ∷ 258 ∷ 772 ∷ [])) }
    ensures brackets { address_of (codes "[::1]") ≡ None }
    ensures elided_twice { address_of (codes "1::2::3") ≡ None }
    ensures seven_groups { address_of (codes "1:2:3:4:5:6:7") ≡ None }
{}

/// `farm host` at words.
pub fn worked_hosts()
    ensures least { command_of (words (codes "farm host a --port 1 --name h --fuel 1")) ≡ Some (Host (codes "a") 1 (codes "h") 1 None None) }
    ensures most { command_of (words (codes "farm host --wait=60 --fuel=4294967295 --name=h-1 --port=65535 ::1")) ≡ Some (Host (codes "::1") 65535 (codes "h-1") 4294967295 (Some 60) None) }
    ensures least_wait { command_of (words (codes "farm host a --port 1 --name h --fuel 1 --wait 1")) ≡ Some (Host (codes "a") 1 (codes "h") 1 (Some 1) None) }
    ensures no_port { command_of (words (codes "farm host a --port 0 --name h --fuel 1")) ≡ None }
    ensures too_great_port { command_of (words (codes "farm host a --port 65536 --name h --fuel 1")) ≡ None }
    ensures no_fuel { command_of (words (codes "farm host a --port 1 --name h --fuel 0")) ≡ None }
    ensures too_much_fuel { command_of (words (codes "farm host a --port 1 --name h --fuel 4294967296")) ≡ None }
    ensures no_wait { command_of (words (codes "farm host a --port 1 --name h --fuel 1 --wait 0")) ≡ None }
    ensures too_long_wait { command_of (words (codes "farm host a --port 1 --name h --fuel 1 --wait 61")) ≡ None }
    ensures no_name { command_of (words (codes "farm host a --port 1 --name h.1 --fuel 1")) ≡ None }
    ensures longest_name { command_of (words (codes "farm host a --port 1 --name abcdefghijklmnopqrstuvwxyz012345 --fuel 1")) ≡ Some (Host (codes "a") 1 (codes "abcdefghijklmnopqrstuvwxyz012345") 1 None None) }
    ensures too_long_name { command_of (words (codes "farm host a --port 1 --name abcdefghijklmnopqrstuvwxyz0123456 --fuel 1")) ≡ None }
    ensures address_left_out { command_of (words (codes "farm host --port 1 --name h --fuel 1")) ≡ None }
    ensures port_left_out { command_of (words (codes "farm host a --name h --fuel 1")) ≡ None }
    ensures name_left_out { command_of (words (codes "farm host a --port 1 --fuel 1")) ≡ None }
    ensures fuel_left_out { command_of (words (codes "farm host a --port 1 --name h")) ≡ None }
    ensures wait_twice { command_of (words (codes "farm host a --port 1 --name h --fuel 1 --wait 1 --wait 1")) ≡ None }
    ensures user { command_of (words (codes "farm host a --port 1 --name h --fuel 1 --user u --password-file f")) ≡ Some (Host (codes "a") 1 (codes "h") 1 None (Some (record { user = codes "u"; password_file = codes "f" }))) }
    ensures user_with_wait { command_of (words (codes "farm host --password-file=p/q --wait=5 --user=u@v --fuel=1 --name=h --port=1 a")) ≡ Some (Host (codes "a") 1 (codes "h") 1 (Some 5) (Some (record { user = codes "u@v"; password_file = codes "p/q" }))) }
    ensures user_with_colon { command_of (words (codes "farm host a --port 1 --name h --fuel 1 --user u:v --password-file f")) ≡ None }
    ensures user_with_control { command_of (codes "farm" ∷ codes "host" ∷ codes "a" ∷ codes "--port=1" ∷ codes "--name=h" ∷ codes "--fuel=1" ∷ codes "--user=u\tv" ∷ codes "--password-file=f" ∷ []) ≡ None }
    ensures user_alone { command_of (words (codes "farm host a --port 1 --name h --fuel 1 --user u")) ≡ None }
    ensures password_file_alone { command_of (words (codes "farm host a --port 1 --name h --fuel 1 --password-file f")) ≡ None }
    ensures user_twice { command_of (words (codes "farm host a --port 1 --name h --fuel 1 --user u --user u --password-file f")) ≡ None }
{}

/// Words of which none is a command's, and words that no command takes.
pub fn worked_words()
    ensures name_alone { command_of (words (codes "farm")) ≡ None }
    ensures other_name { command_of (words (codes "x script")) ≡ Some (Script None None) }
    ensures other_command { command_of (words (codes "farm run")) ≡ None }
    ensures help { command_of (words (codes "farm help")) ≡ None }
    ensures help_option { command_of (words (codes "farm --help")) ≡ None }
    ensures short_help { command_of (words (codes "farm -h")) ≡ None }
    ensures help_of_a_command { command_of (words (codes "farm judge --help")) ≡ None }
    ensures version { command_of (words (codes "farm --version")) ≡ None }
    ensures dashes_first { command_of (words (codes "farm -- script")) ≡ None }
    ensures dashes_last { command_of (words (codes "farm script --")) ≡ None }
    ensures dash { command_of (words (codes "farm script -")) ≡ None }
    ensures short_option { command_of (words (codes "farm script -c f")) ≡ None }
    ensures unknown_option { command_of (words (codes "farm script --c f")) ≡ None }
    ensures no_word { command_of [] ≡ None }
    ensures empty_word { command_of (codes "farm" ∷ codes "script" ∷ [] ∷ []) ≡ None }
    ensures empty_folder { command_of (codes "farm" ∷ codes "judge" ∷ [] ∷ codes "--hosts=1" ∷ []) ≡ None }
{}

/// Words that ask for help or for the version, and near them words that do not.
pub fn worked_help()
    ensures option { answers_to (words (codes "farm --help")) ≡ DisplayHelp ∷ [] }
    ensures short_option { answers_to (words (codes "farm -h")) ≡ DisplayHelp ∷ [] }
    ensures of_a_command { answers_to (words (codes "farm judge --help")) ≡ DisplayHelp ∷ [] }
    ensures short_of_a_command { answers_to (words (codes "farm serve -h")) ≡ DisplayHelp ∷ [] }
    ensures word { answers_to (words (codes "farm help")) ≡ DisplayHelp ∷ InvalidSubcommand ∷ [] }
    ensures version { answers_to (words (codes "farm --version")) ≡ DisplayVersion ∷ [] }
    ensures short_version { answers_to (words (codes "farm -V")) ≡ DisplayVersion ∷ [] }
    ensures command { answers_to (words (codes "farm judge c --hosts 1")) ≡ [] }
    ensures other_word { answers_to (words (codes "farm script x")) ≡ UnknownArgument ∷ [] }
    ensures other_option { answers_to (words (codes "farm script --helps")) ≡ UnknownArgument ∷ [] }
{}
