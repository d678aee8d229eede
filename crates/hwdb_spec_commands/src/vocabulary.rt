//! What is known of properties and keys, as data.

/// How the values of `KEYBOARD_KEY_..` are written, and of which release of Linux the names below are.
pub const KEY_HINT: &str =
    "write a key of Linux 7.2's linux/input-event-codes.h in lower case, without key_";

/// The names that the values of `KEYBOARD_KEY_..` have: those of linux/input-event-codes.h in lower case, without
/// `KEY_`. A line each: the name, and after a space its code. `tests/proofs/key-names` makes it from the newest header that
/// Debian has.
pub const KEY_NAMES: &str = "\
    0 11\n1 2\n102nd 86\n10channelsdown 441\n10channelsup 440\n2 3\n3 4\n3d_mode 623\n4 5\n5 6\n6 7\n7 8\n8 9\n\
    9 10\na 30\nab 406\naccessibility 590\naction_on_selection 596\naddressbook 429\nagain 129\n\
    all_applications 204\nals_toggle 560\nalterase 222\nangle 371\napostrophe 40\nappselect 580\narchive 361\n\
    aspect_ratio 375\nassistant 583\nattendant_off 540\nattendant_on 539\nattendant_toggle 541\naudio 392\n\
    audio_desc 622\nautopilot_engage_toggle 637\naux 390\nb 48\nback 158\nbackslash 43\nbackspace 14\n\
    bassboost 209\nbattery 236\nblue 401\nbluetooth 237\nbookmarks 156\nbreak 411\nbrightness_auto 244\n\
    brightness_cycle 243\nbrightness_max 593\nbrightness_menu 649\nbrightness_min 592\nbrightness_toggle 431\n\
    brightness_zero 244\nbrightnessdown 224\nbrightnessup 225\nbrl_dot1 497\nbrl_dot10 506\nbrl_dot2 498\n\
    brl_dot3 499\nbrl_dot4 500\nbrl_dot5 501\nbrl_dot6 502\nbrl_dot7 503\nbrl_dot8 504\nbrl_dot9 505\nbtn_0 256\n\
    btn_1 257\nbtn_2 258\nbtn_3 259\nbtn_4 260\nbtn_5 261\nbtn_6 262\nbtn_7 263\nbtn_8 264\nbtn_9 265\nbtn_a 304\n\
    btn_b 305\nbtn_back 278\nbtn_base 294\nbtn_base2 295\nbtn_base3 296\nbtn_base4 297\nbtn_base5 298\n\
    btn_base6 299\nbtn_c 306\nbtn_dead 303\nbtn_dpad_down 545\nbtn_dpad_left 546\nbtn_dpad_right 547\n\
    btn_dpad_up 544\nbtn_east 305\nbtn_extra 276\nbtn_forward 277\nbtn_gear_down 336\nbtn_gear_up 337\n\
    btn_gripl 548\nbtn_gripl2 550\nbtn_gripr 549\nbtn_gripr2 551\nbtn_left 272\nbtn_middle 274\nbtn_mode 316\n\
    btn_north 307\nbtn_pinkie 293\nbtn_right 273\nbtn_select 314\nbtn_side 275\nbtn_south 304\nbtn_start 315\n\
    btn_stylus 331\nbtn_stylus2 332\nbtn_stylus3 329\nbtn_task 279\nbtn_thumb 289\nbtn_thumb2 290\n\
    btn_thumbl 317\nbtn_thumbr 318\nbtn_tl 310\nbtn_tl2 312\nbtn_tool_airbrush 324\nbtn_tool_brush 322\n\
    btn_tool_doubletap 333\nbtn_tool_finger 325\nbtn_tool_lens 327\nbtn_tool_mouse 326\nbtn_tool_pen 320\n\
    btn_tool_pencil 323\nbtn_tool_quadtap 335\nbtn_tool_quinttap 328\nbtn_tool_rubber 321\n\
    btn_tool_tripletap 334\nbtn_top 291\nbtn_top2 292\nbtn_touch 330\nbtn_tr 311\nbtn_tr2 313\nbtn_trigger 288\n\
    btn_trigger_happy1 704\nbtn_trigger_happy10 713\nbtn_trigger_happy11 714\nbtn_trigger_happy12 715\n\
    btn_trigger_happy13 716\nbtn_trigger_happy14 717\nbtn_trigger_happy15 718\nbtn_trigger_happy16 719\n\
    btn_trigger_happy17 720\nbtn_trigger_happy18 721\nbtn_trigger_happy19 722\nbtn_trigger_happy2 705\n\
    btn_trigger_happy20 723\nbtn_trigger_happy21 724\nbtn_trigger_happy22 725\nbtn_trigger_happy23 726\n\
    btn_trigger_happy24 727\nbtn_trigger_happy25 728\nbtn_trigger_happy26 729\nbtn_trigger_happy27 730\n\
    btn_trigger_happy28 731\nbtn_trigger_happy29 732\nbtn_trigger_happy3 706\nbtn_trigger_happy30 733\n\
    btn_trigger_happy31 734\nbtn_trigger_happy32 735\nbtn_trigger_happy33 736\nbtn_trigger_happy34 737\n\
    btn_trigger_happy35 738\nbtn_trigger_happy36 739\nbtn_trigger_happy37 740\nbtn_trigger_happy38 741\n\
    btn_trigger_happy39 742\nbtn_trigger_happy4 707\nbtn_trigger_happy40 743\nbtn_trigger_happy5 708\n\
    btn_trigger_happy6 709\nbtn_trigger_happy7 710\nbtn_trigger_happy8 711\nbtn_trigger_happy9 712\nbtn_west 308\n\
    btn_x 307\nbtn_y 308\nbtn_z 309\nbuttonconfig 576\nc 46\ncalc 140\ncalendar 397\ncamera 212\n\
    camera_access_disable 588\ncamera_access_enable 587\ncamera_access_toggle 589\ncamera_down 536\n\
    camera_focus 528\ncamera_left 537\ncamera_right 538\ncamera_up 535\ncamera_zoomin 533\ncamera_zoomout 534\n\
    cancel 223\ncapslock 58\ncd 383\nchannel 363\nchanneldown 403\nchannelup 402\nchat 216\nclear 355\n\
    clearvu_sonar 646\nclose 206\nclosecd 160\ncoffee 152\ncomma 51\ncompose 127\ncomputer 157\nconfig 171\n\
    connect 218\ncontext_menu 438\ncontextual_insert 597\ncontextual_query 598\ncontrolpanel 579\ncopy 133\n\
    cut 137\ncyclewindows 154\nd 32\ndashboard 204\ndata 631\ndatabase 426\ndel_eol 448\ndel_eos 449\n\
    del_line 451\ndelete 111\ndeletefile 146\ndictate 586\ndigits 413\ndirection 153\ndirectory 394\n\
    display_off 245\ndisplaytoggle 431\ndo_not_disturb 591\ndocuments 235\ndollar 434\ndot 52\ndown 108\n\
    dual_range_radar 643\ndvd 389\ne 18\nedit 176\neditor 422\nejectcd 161\nejectclosecd 162\nemail 215\n\
    emoji_picker 585\nend 107\nenter 28\nepg 365\neprivacy_screen_off 595\neprivacy_screen_on 594\nequal 13\n\
    esc 1\neuro 435\nexit 174\nf 33\nf1 59\nf10 68\nf11 87\nf12 88\nf13 183\nf14 184\nf15 185\nf16 186\nf17 187\n\
    f18 188\nf19 189\nf2 60\nf20 190\nf21 191\nf22 192\nf23 193\nf24 194\nf3 61\nf4 62\nf5 63\nf6 64\nf7 65\n\
    f8 66\nf9 67\nfastforward 208\nfastreverse 629\nfavorites 364\nfile 144\nfinance 219\nfind 136\nfirst 404\n\
    fishing_chart 641\nfn 464\nfn_1 478\nfn_2 479\nfn_b 484\nfn_d 480\nfn_e 481\nfn_esc 465\nfn_f 482\nfn_f1 466\n\
    fn_f10 475\nfn_f11 476\nfn_f12 477\nfn_f2 467\nfn_f3 468\nfn_f4 469\nfn_f5 470\nfn_f6 471\nfn_f7 472\n\
    fn_f8 473\nfn_f9 474\nfn_right_shift 485\nfn_s 483\nforward 159\nforwardmail 233\nframeback 436\n\
    frameforward 437\nfront 132\nfull_screen 372\ng 34\ngames 417\ngoto 354\ngraphicseditor 424\ngrave 41\n\
    green 399\nh 35\nhangeul 122\nhanguel 122\nhangup_phone 446\nhanja 123\nhelp 138\nhenkan 92\nhiragana 91\n\
    home 102\nhomepage 172\nhp 211\ni 23\nimages 442\ninfo 358\nins_line 450\ninsert 110\niso 170\nj 36\n\
    journal 578\nk 37\nkatakana 90\nkatakanahiragana 93\nkbd_layout_next 584\nkbd_lcd_menu1 696\n\
    kbd_lcd_menu2 697\nkbd_lcd_menu3 698\nkbd_lcd_menu4 699\nkbd_lcd_menu5 700\nkbdillumdown 229\n\
    kbdillumtoggle 228\nkbdillumup 230\nkbdinputassist_accept 612\nkbdinputassist_cancel 613\n\
    kbdinputassist_next 609\nkbdinputassist_nextgroup 611\nkbdinputassist_prev 608\nkbdinputassist_prevgroup 610\n\
    keyboard 374\nkp0 82\nkp1 79\nkp2 80\nkp3 81\nkp4 75\nkp5 76\nkp6 77\nkp7 71\nkp8 72\nkp9 73\nkpasterisk 55\n\
    kpcomma 121\nkpdot 83\nkpenter 96\nkpequal 117\nkpjpcomma 95\nkpleftparen 179\nkpminus 74\nkpplus 78\n\
    kpplusminus 118\nkprightparen 180\nkpslash 98\nl 38\nlanguage 368\nlast 405\nleft 105\nleft_down 617\n\
    left_up 616\nleftalt 56\nleftbrace 26\nleftctrl 29\nleftmeta 125\nleftshift 42\nlights_toggle 542\n\
    linefeed 101\nlink_phone 447\nlist 395\nlogoff 433\nm 50\nmacro 112\nmacro1 656\nmacro10 665\nmacro11 666\n\
    macro12 667\nmacro13 668\nmacro14 669\nmacro15 670\nmacro16 671\nmacro17 672\nmacro18 673\nmacro19 674\n\
    macro2 657\nmacro20 675\nmacro21 676\nmacro22 677\nmacro23 678\nmacro24 679\nmacro25 680\nmacro26 681\n\
    macro27 682\nmacro28 683\nmacro29 684\nmacro3 658\nmacro30 685\nmacro4 659\nmacro5 660\nmacro6 661\n\
    macro7 662\nmacro8 663\nmacro9 664\nmacro_preset1 691\nmacro_preset2 692\nmacro_preset3 693\n\
    macro_preset_cycle 690\nmacro_record_start 688\nmacro_record_stop 689\nmail 155\nmark_waypoint 638\n\
    media 226\nmedia_repeat 439\nmedia_top_menu 619\nmemo 396\nmenu 139\nmessenger 430\nmhp 367\nmicmute 248\n\
    minus 12\nmode 373\nmove 175\nmp3 391\nmsdos 151\nmuhenkan 94\nmute 113\nn 49\nnav_chart 640\nnav_info 648\n\
    new 181\nnews 427\nnext 407\nnext_element 635\nnext_favorite 624\nnextsong 163\nnotification_center 444\n\
    numeric_0 512\nnumeric_1 513\nnumeric_11 620\nnumeric_12 621\nnumeric_2 514\nnumeric_3 515\nnumeric_4 516\n\
    numeric_5 517\nnumeric_6 518\nnumeric_7 519\nnumeric_8 520\nnumeric_9 521\nnumeric_a 524\nnumeric_b 525\n\
    numeric_c 526\nnumeric_d 527\nnumeric_pound 523\nnumeric_star 522\nnumlock 69\no 24\nok 352\n\
    onscreen_keyboard 632\nopen 134\noption 357\np 25\npagedown 109\npageup 104\npaste 135\npause 119\n\
    pause_record 626\npausecd 201\npc 376\nperformance 701\nphone 169\npickup_phone 445\nplay 207\nplaycd 200\n\
    player 387\nplaypause 164\npower 116\npower2 356\npresentation 425\nprevious 412\nprevious_element 636\n\
    previoussong 165\nprint 210\nprivacy_screen_toggle 633\nprog1 148\nprog2 149\nprog3 202\nprog4 203\n\
    program 362\nprops 130\npvr 366\nq 16\nquestion 214\nr 19\nradar_overlay 644\nradio 385\nrecord 167\nred 398\n\
    redo 182\nrefresh 173\nrefresh_rate_toggle 562\nreply 232\nreserved 0\nrestart 408\nrewind 168\nrfkill 247\n\
    right 106\nright_down 615\nright_up 614\nrightalt 100\nrightbrace 27\nrightctrl 97\nrightmeta 126\n\
    rightshift 54\nro 89\nroot_menu 618\nrotate_display 153\nrotate_lock_toggle 561\ns 31\nsat 381\nsat2 382\n\
    save 234\nscale 120\nscreen 375\nscreenlock 152\nscreensaver 581\nscrolldown 178\nscrolllock 70\n\
    scrollup 177\nsearch 217\nselect 353\nselective_screenshot 634\nsemicolon 39\nsend 231\nsendfile 145\n\
    setup 141\nshop 221\nshuffle 410\nsidevu_sonar 647\nsingle_range_radar 642\nslash 53\nsleep 142\nslow 409\n\
    slowreverse 630\nsos 639\nsound 213\nspace 57\nspellcheck 432\nsport 220\nspreadsheet 423\nstop 128\n\
    stop_record 625\nstopcd 166\nsubtitle 370\nsuspend 205\nswitchvideomode 227\nsysrq 99\nt 20\ntab 15\n\
    tape 384\ntaskmanager 577\nteen 414\ntext 388\ntime 359\ntitle 369\ntouchpad_off 532\ntouchpad_on 531\n\
    touchpad_toggle 530\ntraditional_sonar 645\ntuner 386\ntv 377\ntv2 378\ntwen 415\nu 22\nundo 131\n\
    unknown 240\nunmute 628\nup 103\nuwb 239\nv 47\nvcr 379\nvcr2 380\nvendor 360\nvideo 393\nvideo_next 241\n\
    video_prev 242\nvideophone 416\nvod 627\nvoicecommand 582\nvoicemail 428\nvolumedown 114\nvolumeup 115\nw 17\n\
    wakeup 143\nwimax 246\nwlan 238\nwordprocessor 421\nwps_button 529\nwwan 246\nwww 150\nx 45\nxfer 147\ny 21\n\
    yellow 400\nyen 124\nz 44\nzenkakuhankaku 85\nzoom 372\nzoomin 418\nzoomout 419\nzoomreset 420\n";

/// What people call keys that have other names. A line each: what they say, and after a space the key, or several with `or` between.
/// These are names of X's keysyms, and what keys have on them.
pub const KEY_WORDS: &str = "\
    alt leftalt or rightalt\nalt_l leftalt\nalt_r rightalt\naltgr rightalt\napplication compose\n\
    apps compose\naudiolowervolume volumedown\naudiomicmute micmute\naudiomute mute\naudionext nextsong\n\
    audioplay playpause\naudioprev previoussong\naudioraisevolume volumeup\naudiostop stopcd\n\
    backquote grave\nbacktick grave\nbksp backspace\nbracketleft leftbrace\nbracketright rightbrace\n\
    browser www\ncalculator calc\ncaps capslock\ncmd leftmeta or rightmeta\ncommand leftmeta or rightmeta\n\
    control leftctrl or rightctrl\ncontrol_l leftctrl\ncontrol_r rightctrl\nctrl leftctrl or rightctrl\n\
    ctrl_l leftctrl\nctrl_r rightctrl\ndash minus\ndel delete\ndisabled reserved\nescape esc\nexplorer file\n\
    hyphen minus\nignore reserved\nins insert\niso_level3_shift rightalt\nkp_enter kpenter\nlalt leftalt\n\
    lctrl leftctrl\nleftbracket leftbrace\nleftclick btn_left\nleftcontrol leftctrl\nleftsuper leftmeta\n\
    leftwin leftmeta\nlock screenlock\nlshift leftshift\nlwin leftmeta\nmeta leftmeta or rightmeta\n\
    meta_l leftmeta\nmeta_r rightmeta\nmic micmute\nmicrophone micmute\nmiddleclick btn_middle\n\
    monbrightnessdown brightnessdown\nmonbrightnessup brightnessup\nmulti_key compose\nmycomputer computer\n\
    none reserved\nnull reserved\nnumlk numlock\npage_down pagedown\npage_up pageup\nperiod dot\n\
    pgdn pagedown\npgdown pagedown\npgup pageup\npipe backslash\nprint_screen sysrq\nprintscreen sysrq\n\
    printscrn sysrq\nprior pageup\nprtsc sysrq\nprtscn sysrq\nprtscr sysrq\nquote apostrophe\nralt rightalt\n\
    rctrl rightctrl\nreturn enter\nrightbracket rightbrace\nrightclick btn_right\nrightcontrol rightctrl\n\
    rightsuper rightmeta\nrightwin rightmeta\nrshift rightshift\nrwin rightmeta\nscrlk scrolllock\n\
    scroll scrolllock\nshift leftshift or rightshift\nshift_l leftshift\nshift_r rightshift\nspacebar space\n\
    super leftmeta or rightmeta\nsuper_l leftmeta\nsuper_r rightmeta\ntilde grave\nvoldown volumedown\n\
    volup volumeup\nwifi wlan\nwin leftmeta or rightmeta\nwindows leftmeta or rightmeta\n";

/// The codes of axes that are no code of one if they are read as hexadecimal: evtest shows them in decimal. A line each: that, and after
/// a space the code.
pub const AXIS_CODES: &str = "\
    40 28\n41 29\n42 2a\n43 2b\n44 2c\n45 2d\n46 2e\n47 2f\n48 30\n49 31\n50 32\n51 33\n\
    52 34\n53 35\n54 36\n55 37\n56 38\n57 39\n58 3a\n59 3b\n60 3c\n61 3d\n62 3e\n63 3f\n";

/// What people write for values. A line each: what they write, and after a space the value. It counts where the property takes that.
pub const VALUE_WORDS: &str = "\
    back rear\nbuiltin internal\nbuilt-in internal\ndisable 0\ndisabled 0\nenable 1\nenabled 1\nextern external\nf 0\n\
    false 0\nheadphones headphone\nintern internal\nkeyboard base\nlid display\nmic microphone\nn 0\nno 0\n\
    notebook laptop\noff 0\non 1\nportable laptop\nscreen display\nspeakers speaker\nt 1\ntrue 1\ny 1\nyes 1\n";

/// The properties that udev's rules, systemd and libinput read, a line each. It has a name, the form of the value, the
/// prefixes of the patterns below which it is read, and where this is said. A space is between them. A name that ends
/// with `_` is for all that begin with it. `*` is for any prefix. A form is one of those of `ValueForm`, in lower case, or
/// else the values themselves, with `|` between. Names that many lines have come first.
pub const PROPERTIES: &str = "\
    ID_MODEL_FROM_DATABASE any * 20-pci-vendor-model.hwdb\n\
    ID_VENDOR_FROM_DATABASE any * 20-usb-vendor-model.hwdb\n\
    ID_OUI_FROM_DATABASE any * 20-OUI.hwdb\n\
    ID_PCI_CLASS_FROM_DATABASE any * 20-pci-classes.hwdb\n\
    ID_PCI_SUBCLASS_FROM_DATABASE any * 20-pci-classes.hwdb\n\
    ID_PCI_INTERFACE_FROM_DATABASE any * 20-pci-classes.hwdb\n\
    ID_USB_CLASS_FROM_DATABASE any * 20-usb-classes.hwdb\n\
    ID_USB_SUBCLASS_FROM_DATABASE any * 20-usb-classes.hwdb\n\
    ID_USB_PROTOCOL_FROM_DATABASE any * 20-usb-classes.hwdb\n\
    ID_SDIO_CLASS_FROM_DATABASE any * 20-sdio-classes.hwdb\n\
    ID_VMBUS_CLASS_FROM_DATABASE any * 20-vmbus-class.hwdb\n\
    ID_PRODUCT_FROM_DATABASE any * 20-bluetooth-vendor-product.hwdb\n\
    ID_NET_NAME_FROM_DATABASE any * 20-net-ifname.hwdb\n\
    MOUSE_DPI resolutions mouse|evdev|id-input 70-mouse.hwdb\n\
    KEYBOARD_KEY_ key evdev 60-keyboard.hwdb\n\
    EVDEV_ABS_ axis evdev 60-evdev.hwdb\n\
    ACCEL_MOUNT_MATRIX matrix sensor|evdev 60-sensor.hwdb\n\
    MOUSE_WHEEL_CLICK_ANGLE turn mouse|evdev|id-input 70-mouse.hwdb\n\
    MOUSE_WHEEL_CLICK_ANGLE_HORIZONTAL turn mouse|evdev|id-input 70-mouse.hwdb\n\
    MOUSE_WHEEL_CLICK_COUNT turn mouse|evdev|id-input 70-mouse.hwdb\n\
    MOUSE_WHEEL_CLICK_COUNT_HORIZONTAL turn mouse|evdev|id-input 70-mouse.hwdb\n\
    MOUSE_WHEEL_TILT_HORIZONTAL 0|1 mouse|evdev|id-input 70-mouse.hwdb\n\
    MOUSE_WHEEL_TILT_VERTICAL 0|1 mouse|evdev|id-input 70-mouse.hwdb\n\
    ID_INPUT 0|1 id-input|evdev|mouse|touchpad|libwacom|usb|input|joystick 60-input-id.hwdb\n\
    ID_INPUT_ACCELEROMETER 0|1 id-input|evdev|mouse|touchpad|libwacom|usb|input|joystick 60-input-id.hwdb\n\
    ID_INPUT_JOYSTICK 0|1 id-input|evdev|mouse|touchpad|libwacom|usb|input|joystick 60-input-id.hwdb\n\
    ID_INPUT_KEY 0|1 id-input|evdev|mouse|touchpad|libwacom|usb|input|joystick 60-input-id.hwdb\n\
    ID_INPUT_KEYBOARD 0|1 id-input|evdev|mouse|touchpad|libwacom|usb|input|joystick 60-input-id.hwdb\n\
    ID_INPUT_MOUSE 0|1 id-input|evdev|mouse|touchpad|libwacom|usb|input|joystick 60-input-id.hwdb\n\
    ID_INPUT_POINTINGSTICK 0|1 id-input|evdev|mouse|touchpad|libwacom|usb|input|joystick 60-input-id.hwdb\n\
    ID_INPUT_SWITCH 0|1 id-input|evdev|mouse|touchpad|libwacom|usb|input|joystick 60-input-id.hwdb\n\
    ID_INPUT_TABLET 0|1 id-input|evdev|mouse|touchpad|libwacom|usb|input|joystick 60-input-id.hwdb\n\
    ID_INPUT_TABLET_PAD 0|1 id-input|evdev|mouse|touchpad|libwacom|usb|input|joystick 60-input-id.hwdb\n\
    ID_INPUT_TOUCHPAD 0|1 id-input|evdev|mouse|touchpad|libwacom|usb|input|joystick 60-input-id.hwdb\n\
    ID_INPUT_TOUCHSCREEN 0|1 id-input|evdev|mouse|touchpad|libwacom|usb|input|joystick 60-input-id.hwdb\n\
    ID_INPUT_WIDTH_MM count id-input|evdev|mouse|touchpad|libwacom|usb|input|joystick libinput\n\
    ID_INPUT_HEIGHT_MM count id-input|evdev|mouse|touchpad|libwacom|usb|input|joystick libinput\n\
    ID_INPUT_TRACKBALL 0|1 id-input|evdev|mouse|touchpad|libwacom|usb|input|joystick 70-mouse.hwdb\n\
    ID_INPUT_3D_MOUSE 0|1 id-input|evdev|mouse|touchpad|libwacom|usb|input|joystick 70-mouse.hwdb\n\
    ID_INPUT_TOUCHPAD_INTEGRATION internal|external touchpad|evdev|id-input 70-touchpad.hwdb\n\
    ID_INTEGRATION internal|external * 60-keyboard.hwdb\n\
    ID_AUTOSUSPEND 0|1 usb|pci|i2c|hid|acpi|platform|of|spi|sdio|mmc|scsi|virtio|serio|pnp|input|typec|hdaudio|vmbus 60-autosuspend.rules\n\
    ID_PERSIST 0|1 usb 60-autosuspend.rules\n\
    ID_AUTOSUSPEND_DELAY_MS integer usb|pci|i2c|hid|acpi|platform|of|spi|sdio|mmc|scsi|virtio|serio|pnp|input|typec|hdaudio|vmbus 60-autosuspend.rules\n\
    ID_AV_PRODUCTION_CONTROLLER 0|1 * 70-av-production.hwdb\n\
    ID_AV_LIGHTS 0|1 * 70-av-production.hwdb\n\
    ID_PDA 0|1 * 70-pda.hwdb\n\
    ID_SIGNAL_ANALYZER 0|1 * 70-analyzers.hwdb\n\
    ID_MAKER_TOOL 0|1 * 70-maker-tools.hwdb\n\
    ID_HARDWARE_WALLET 0|1 * 70-hardware-wallets.hwdb\n\
    ID_SOFTWARE_RADIO 0|1 * 70-software-radio.hwdb\n\
    ID_INFRARED_CAMERA 0|1 * 70-cameras.hwdb\n\
    ID_CAMERA_DIRECTION front|rear camera 70-cameras.hwdb\n\
    ID_MM_DEVICE_IGNORE 0|1 * 70-software-radio.hwdb\n\
    ID_NET_AUTO_LINK_LOCAL_ONLY 0|1 * 82-net-auto-link-local.hwdb\n\
    ID_NET_NAME_INCLUDE_DOMAIN 0|1 * 20-net-ifname.hwdb\n\
    ID_SYS_VENDOR_IS_RUBBISH 0|1 dmi 20-dmi-id.hwdb\n\
    ID_PRODUCT_NAME_IS_RUBBISH 0|1 dmi 20-dmi-id.hwdb\n\
    ID_PRODUCT_VERSION_IS_RUBBISH 0|1 dmi 20-dmi-id.hwdb\n\
    ID_BOARD_VERSION_IS_RUBBISH 0|1 dmi 20-dmi-id.hwdb\n\
    ID_PRODUCT_SKU_IS_RUBBISH 0|1 dmi 20-dmi-id.hwdb\n\
    ID_CHASSIS_ASSET_TAG_IS_RUBBISH 0|1 dmi 20-dmi-id.hwdb\n\
    ID_CHASSIS desktop|laptop|convertible|server|tablet|handset|watch|embedded|vm|container * 20-dmi-id.hwdb\n\
    ID_SYSFS_ATTRIBUTE_MODEL product_name|product_version * 20-dmi-id.hwdb\n\
    POINTINGSTICK_SENSITIVITY byte evdev 70-pointingstick.hwdb\n\
    XKB_FIXED_LAYOUT setting evdev|id-input 60-keyboard.hwdb\n\
    XKB_FIXED_VARIANT setting evdev|id-input 60-keyboard.hwdb\n\
    XKB_FIXED_MODEL setting evdev|id-input 60-keyboard.hwdb\n\
    KEYBOARD_LED_NUMLOCK 0|1 evdev 60-keyboard.hwdb\n\
    KEYBOARD_LED_CAPSLOCK 0|1 evdev 60-keyboard.hwdb\n\
    ACCEL_LOCATION display|base sensor 60-sensor.hwdb\n\
    PROXIMITY_NEAR_LEVEL count sensor 60-sensor.hwdb\n\
    IEEE1394_UNIT_FUNCTION_MIDI 0|1 ieee1394 80-ieee1394-unit-function.hwdb\n\
    IEEE1394_UNIT_FUNCTION_AUDIO 0|1 ieee1394 80-ieee1394-unit-function.hwdb\n\
    IEEE1394_UNIT_FUNCTION_VIDEO 0|1 ieee1394 80-ieee1394-unit-function.hwdb\n\
    ID_TAG_MASTER_OF_SEAT 0|1 fb|pci 60-seat.hwdb\n\
    SOUND_FORM_FACTOR internal|webcam|speaker|headphone|headset|handset|microphone|controller * 70-sound-card.hwdb\n\
    TPM2_BROKEN_NVPCR 0|1 tpm2 60-tpm2.hwdb\n\
    VSOCK_ACCEPT_VMADDR_CID_ANY 0|1 * systemd\n\
    CHARGE_LIMIT limits battery 60-upower-battery.hwdb\n\
    ID_DEBUG_APPLIANCE any * 70-debug-appliance.hwdb\n\
    IMDS_ADDRESS_IPV4 any dmi 40-imds.hwdb\n\
    IMDS_ADDRESS_IPV6 any dmi 40-imds.hwdb\n\
    IMDS_DATA_URL any dmi 40-imds.hwdb\n\
    IMDS_DATA_URL_SUFFIX any dmi 40-imds.hwdb\n\
    IMDS_EXTRA_HEADER any dmi 40-imds.hwdb\n\
    IMDS_KEY_HOSTNAME any dmi 40-imds.hwdb\n\
    IMDS_KEY_IPV4_PUBLIC any dmi 40-imds.hwdb\n\
    IMDS_KEY_IPV6_PUBLIC any dmi 40-imds.hwdb\n\
    IMDS_KEY_REGION any dmi 40-imds.hwdb\n\
    IMDS_KEY_SSH_KEY any dmi 40-imds.hwdb\n\
    IMDS_KEY_USERDATA any dmi 40-imds.hwdb\n\
    IMDS_KEY_USERDATA_BASE any dmi 40-imds.hwdb\n\
    IMDS_KEY_USERDATA_BASE64 any dmi 40-imds.hwdb\n\
    IMDS_KEY_ZONE any dmi 40-imds.hwdb\n\
    IMDS_REFRESH_HEADER_NAME any dmi 40-imds.hwdb\n\
    IMDS_TOKEN_HEADER_NAME any dmi 40-imds.hwdb\n\
    IMDS_TOKEN_URL any dmi 40-imds.hwdb\n\
    IMDS_VENDOR any dmi 40-imds.hwdb\n\
    LIBINPUT_CALIBRATION_MATRIX any * libinput\n\
    LIBINPUT_DEVICE_GROUP any * libinput\n\
    LIBINPUT_IGNORE_DEVICE any * libinput\n\
    LIBINPUT_ATTR_ any * libinput\n\
    LIBINPUT_MODEL_ any * libinput\n\
    ID_SEAT any * sd-login\n\
    WL_SEAT any * weston\n\
    WL_OUTPUT any * weston\n\
    XKBLAYOUT any * xserver\n\
    XKBMODEL any * xserver\n\
    XKBOPTIONS any * xserver\n\
    XKBRULES any * xserver\n\
    XKBVARIANT any * xserver\n";

/// The prefixes below which all names are known, with `|` between: systemd's hwdb files of these prefixes name all properties that are
/// read, and the rows above have what libinput and X read.
pub const KNOWN_BELOW: &str = "evdev|mouse|touchpad|joystick|sensor|id-input|camera|battery";

/// Properties that are no longer read. A line each: its name, and after a space what came for it, and when if that is
/// known.
pub const OLD_PROPERTIES: &str = "\
    POINTINGSTICK_CONST_ACCEL POINTINGSTICK_SENSITIVITY\n\
    ID_INPUT_JOYSTICK_INTEGRATION ID_INTEGRATION, since systemd 260\n";

/// Properties that are read with others of their record alone. A line each: its name, the others with a comma between, and
/// where this is said, with a space between.
pub const COMPANIONS: &str = "\
    MOUSE_WHEEL_CLICK_COUNT MOUSE_WHEEL_CLICK_ANGLE 70-mouse.hwdb\n\
    MOUSE_WHEEL_CLICK_ANGLE_HORIZONTAL MOUSE_WHEEL_CLICK_ANGLE 70-mouse.hwdb\n\
    MOUSE_WHEEL_CLICK_COUNT_HORIZONTAL MOUSE_WHEEL_CLICK_COUNT,MOUSE_WHEEL_CLICK_ANGLE_HORIZONTAL 70-mouse.hwdb\n";

/// The fields of the machine's MODALIAS (drivers/firmware/dmi-id.c of Linux). A name a line.
pub const MACHINE_FIELDS: &str =
    "svn\nsku\npvr\nbvn\nbvr\nrvn\nrvr\ncvn\ncvr\nefr\ncat\npn\nrn\nbd\nbr\nct\n";

/// What a machine's DMI has for a vendor or a product that its maker didn't fill in, as Linux shows it. A name a line. The first ones are
/// of 60-sensor.hwdb, whose records name the firmware for that reason; the others are our choice.
pub const PLACEHOLDERS: &str = "\
    Defaultstring\n\
    Insyde\n\
    TobefilledbyO.E.M.\n\
    ToBeFilledByO.E.M.\n\
    Systemmanufacturer\n\
    SystemProductName\n\
    NotApplicable\n\
    NotSpecified\n\
    None\n\
    OEM\n";

/// Which texts are values of a property.
#[derive(Clone, Copy, Debug, PartialEq, Eq)]
pub enum ValueForm {
    /// Any text.
    Any,
    /// Decimal digits.
    Count,
    /// Decimal digits, after a `-` or not.
    Integer,
    /// A number from 1 to 360, after a `-` or not.
    Turn,
    /// A number from 0 to 255.
    Byte,
    /// Digits with a `.` among them or not, after a sign or not.
    Decimal,
    /// Three rows of three decimals.
    Matrix,
    /// The resolutions of a mouse.
    Resolutions,
    /// The limits of an axis.
    Axis,
    /// Two percentages, or `_` for one.
    Limits,
    /// A key.
    Key,
    /// Letters, digits and a few signs, as X has them in the names of layouts.
    Setting,
    /// One of some words.
    Choice,
}

/// What is known of a number of a matrix.
#[derive(Clone, Copy, Debug, PartialEq, Eq)]
pub enum Sign {
    /// It is -1.
    Minus,
    /// It is 0.
    Zero,
    /// It is 1.
    Plus,
    /// It is another one.
    Other,
}

/// That of the three numbers of a row.
#[derive(Clone, Copy, Debug, PartialEq, Eq)]
pub struct SignRow {
    /// The first.
    pub x: Sign,
    /// The second.
    pub y: Sign,
    /// The third.
    pub z: Sign,
}

/// Why a property doesn't fit what is known of properties.
#[derive(Clone, Copy, Debug, PartialEq, Eq)]
pub enum Misuse {
    /// Nothing is known of its name, which is nearly one that is known.
    NearName,
    /// It is no longer read.
    OldName,
    /// The code in its name isn't lower-case hexadecimal, or none of an axis.
    ScanCode,
    /// Its value isn't a key.
    UnknownKey,
    /// Its value isn't of its form.
    UnfitValue,
    /// A row of its matrix is zero.
    ZeroRow,
    /// The determinant of its matrix is 0.
    SingularMatrix,
    /// More than one of its resolutions is the default.
    TwoDefaults,
}
